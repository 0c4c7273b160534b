//! The statuses of the tasks.

ghost use Rattle.std.specs.Prelude.{◌≡◌, ℕ, ◌<◌, Some, replicate};
ghost use Rattle.perf_base.specs.declared.numbers.TaskNo.{TaskNo as Task};
ghost use Rattle.stage_spec.specs.Limits.{AreTaskNumbers};
ghost use Rattle.stage_spec.specs.Stage as stage;
ghost use Rattle.perf_world.specs.Seen.{noted};

use perf_base::{CpuNo, TaskNo};
use stage_spec::{TaskState, TaskStatus};

fn no_tasks() -> [TaskStatus; 64]
    ensures { result ≡ replicate 64 stage.unknown_task }
{
    [TaskStatus {
        state: TaskState::Unknown,
        last: None,
    }; 64]
}

/// The tasks that are there from the start, and no others.
pub fn first_tasks(declared: &[TaskNo]) -> [TaskStatus; 64]
    requires { AreTaskNumbers declared.now }
    ensures { (cpus : ℕ) → result ≡ (stage.first_stage cpus declared.now).tasks }
{
    let mut tasks = no_tasks();
    for task in declared {
        tasks[task.0 as usize] = TaskStatus {
            state: TaskState::Live,
            last: None,
        };
    }
    tasks
}

/// A processor is the last that a task ran on.
pub fn note_last(tasks: &mut [TaskStatus; 64], cpu: CpuNo, task: Option<TaskNo>)
    requires { (t : Task) → task ≡ Some t → t.0 < 64 }
    ensures { tasks.new ≡ noted cpu task tasks.old }
{
    if let Some(task) = task {
        tasks[task.0 as usize].last = Some(cpu);
    }
}
