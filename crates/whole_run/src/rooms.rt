// Room for a plan and for the text of its run, and arrays of zeros to be it, since the program has no heap.
ghost use Rattle.std.specs.Prelude.{◌≡◌};
ghost use Rattle.whole_run.specs.Rooms.{Zeros};

// Room for the longest plan and one byte more, by which a longer one is seen and refused.
pub const PLAN_ROOM: usize = 65537;

// Room for the longest text of a run.
pub const TEXT_ROOM: usize = 420000;

// So many zeros, as the contract says one by one.
pub fn zeros<T: Copy + Default, const N: usize>() -> [T; N]
    ensures { Zeros T.is_default N result }
{
    [T::default(); N]
}

// The room for a plan.
pub fn plan_room() -> [u8; PLAN_ROOM]
    ensures { Zeros (λ byte. byte ≡ 0) 65537 result }
{
    zeros()
}
