// The whole run of a plan, as text in bytes that the caller lends.
ghost use Rattle.cabinet.specs.Promises.{RunPromise};

use answers::tell_written;
use whole_run::running::run_plan;

// Prints the lines of the run of a plan's bytes, whatever they are: 0, or 17 where fewer than 420,000 bytes are lent for the text. A plan that
// is refused is told in the text.
#[unsafe(no_mangle)]
pub extern "C" fn zeppilorn_run_plan(plan: &[u8], text: &mut [u8], fields: &mut [u32; 1]) -> u32
    ensures { RunPromise plan.now text.old result fields.new text.new }
{
    let [answer, size] = tell_written(run_plan(plan, text));
    *fields = [size];
    answer
}
