//! What words ask for is one task, and one that can be done in time. Nothing here runs.
ghost use Rattle.std.specs.Prelude.{◌≡◌, ◌≢◌, ◌≤◌, List};
ghost use Rattle.bx_grid.specs.Orders.{AreLimits};
ghost use Rattle.bx_verilog.specs.Formulas.{Text};
ghost use Rattle.bx_words.specs.Workers.{DifferInWorkers};
ghost use Rattle.bx_engine.specs.Answers.{Answer, IsAnswer};
ghost use Rattle.bx_engine.specs.Tasks.{Task, Names, Inputs, IsTask};

/// Words ask for one task at most.
pub fn words_ask_for_one_task()
    ensures { (words : List Text) (one other : Task) → IsTask words one → IsTask words other
        → one ≡ other }
{}

/// All numbers of workers ask for one task, and so have one answer.
pub fn all_numbers_of_workers_ask_for_one_task()
    ensures task { (one other : List Text) (task : Task) → DifferInWorkers one other
        → IsTask one task → IsTask other task }
    ensures answer { (one other : List Text) (inputs : Names → Inputs) (answer : Answer)
        → DifferInWorkers one other → IsAnswer one inputs answer → IsAnswer other inputs answer }
{}

/// The limits of a task are from 1 to 144, its budget is within that of a search, and it writes two files, neither
/// of which is read.
pub fn a_task_is_within_bounds()
    ensures limits { (words : List Text) (task : Task) → IsTask words task → AreLimits task.limits }
    ensures budget { (words : List Text) (task : Task) → IsTask words task
        → task.budget ≤ 67108864 }
    ensures apart { (words : List Text) (task : Task) → IsTask words task
        → task.design ≢ task.cert }
    ensures net_apart { (words : List Text) (task : Task) → IsTask words task
        → (task.design ≢ task.net) × (task.cert ≢ task.net) }
    ensures lib_apart { (words : List Text) (task : Task) → IsTask words task
        → (task.design ≢ task.lib) × (task.cert ≢ task.lib) }
{}
