// Where each thing lies in the words: specs/Places.antt says the same.
pub const INTERVAL_AT: usize = 0;

pub const CYCLE_AT: usize = INTERVAL_AT + 1;

pub const CLASSES_AT: usize = CYCLE_AT + 1;

pub const FACTORS_AT: usize = CLASSES_AT + 1;

pub const ROW_COUNT_AT: usize = FACTORS_AT + 8;

pub const ROWS_AT: usize = ROW_COUNT_AT + 1;

pub const COUNTER_AT: usize = ROWS_AT + 192;

pub const ACCEPTED_AT: usize = COUNTER_AT + 1;

pub const LEFT_AT: usize = ACCEPTED_AT + 1;

pub const LINK_AT: usize = LEFT_AT + 1;

pub const LENGTHS_AT: usize = LINK_AT + 4;

pub const PACKETS_AT: usize = LENGTHS_AT + 64;

pub const BOX_WORDS: usize = PACKETS_AT + 4096;

pub const FACTORS_BEFORE: usize = FACTORS_AT - 1;

pub const ROWS_BEFORE: usize = ROWS_AT - 6;
