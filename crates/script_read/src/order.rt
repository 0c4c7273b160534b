//! Whether an order does each line once.

ghost use Rattle.std.specs.Prelude.{◌≡◌, ◌<◌, ◌↔◌, IsTrue, All, slice_index};
ghost use Rattle.perf_base.specs.declared.numbers.CpuNo.{CpuNo};
ghost use Rattle.perf_base.specs.declared.numbers.ToolNo.{ToolNo};
ghost use Rattle.perf_base.specs.Scripts.{IsScript, IsAct};
ghost use Rattle.stage_spec.specs.Order.{IsComplete, done_by_cpu, done_by_tool};

use perf_base::{Act, Script};

/// How many lines of each processor and of each tool the acts of the script's order do.
fn lines_done(script: &Script, order: &[Act]) -> ([usize; 8], [usize; 4])
    requires script { IsScript script.now }
    requires acts { All (IsAct script.now) order.now }
    ensures cpus { (cpu : CpuNo) → cpu.0 < 8 → slice_index result.0 cpu.0 ≡ done_by_cpu cpu order.now }
    ensures tools { (tool : ToolNo) → tool.0 < 4 → slice_index result.1 tool.0 ≡ done_by_tool tool order.now }
{
    let mut cpus = [0; 8];
    let mut tools = [0; 4];
    for act in order {
        match act {
            Act::Processor(cpu) => cpus[usize::from(cpu.0)] += 1,
            Act::Tool(tool) => tools[usize::from(tool.0)] += 1,
            Act::Seen(..) => {}
        }
    }
    (cpus, tools)
}

/// Whether each processor and each tool has as many acts in the order as lines. It passes over the order once.
pub fn order_complete(script: &Script) -> bool
    ensures { IsTrue result ↔ IsComplete script.now script.now.order }
{
    let (cpus, tools) = lines_done(script, script.order());
    cpus == script.lines_of_cpus() && tools == script.lines_of_tools()
}
