// What the program does between its input and its output: an image is loaded and run, and the text is made.
#![tactic(auto)]

ghost use Rattle.text.specs.Texts.{Text};
ghost use Rattle.machine.specs.declared.State.{State};
ghost use Rattle.machine.specs.Machine.{machine};
ghost use Rattle.machine.specs.Runs.{left};
ghost use Rattle.isa.specs.Mil1750.{mil1750};
ghost use Rattle.program.specs.Printed.{the_run, printed, ran_text, afterwards, Holds};

use machine::State;

// A run of 1,000 steps, each of 100 tenths of a microsecond, and its report.
fn run_and_report(
    s: State,
    memory: &mut [u16],
    pages: &mut [u16],
    ports: &mut [u16],
    out: &mut [u8; 256],
) -> usize
    ensures { Text out.old (ran_text (machine s memory.old pages.old ports.old)) out.new result
        × Holds (left mil1750 (machine s memory.old pages.old ports.old) the_run) memory.new pages.new ports.new }
{
    let durations = [100u16; 257];
    match run::run(s, memory, pages, ports, &durations, 1000) {
        Ok(left) => report::report(1000, left, out),
        Err(e) => report::refusal(u32::from(run::number(Err(e))), out),
    }
}

// The program's text for an input, on the memory, page registers and ports that it holds, whatever they contain; a refusal leaves them.
pub fn text_for(
    input: &[u8],
    memory: &mut [u16; 16384],
    pages: &mut [u16; 512],
    ports: &mut [u16; 1024],
    out: &mut [u8; 256],
) -> usize
    ensures { Text out.old (printed input.now) out.new result
        × ((s : State) → Holds (afterwards input.now (machine s memory.old pages.old ports.old))
        memory.new pages.new ports.new) }
{
    if 32768 < input.len() {
        return report::refusal(13, out);
    }
    match image_load::load(reset::reset_state(), input, memory, pages, ports) {
        Ok(state) => run_and_report(state, memory, pages, ports, out),
        Err(e) => report::refusal(u32::from(image::questions::number(Err(e))), out),
    }
}
