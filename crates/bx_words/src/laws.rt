//! Laws about the definitions alone, each the clause of a function with an empty body. Nothing here runs.
ghost use Rattle.std.specs.Prelude.{◌≡◌, ◌↔◌, ℕ, List, None, Some};
ghost use Rattle.bx_words.specs.declared.commands.Command.{Command as Asked};
ghost use Rattle.bx_words.specs.declared.faults.WordFault.{WordFault};
ghost use Rattle.bx_words.specs.Words.{first_fault, IsCommand};
ghost use Rattle.bx_words.specs.Causes.{IsCause};
ghost use Rattle.bx_words.specs.Workers.{AskForOne, DifferInWorkers};

/// Each fault is the first one exactly where its cause stands.
pub fn a_fault_comes_exactly_with_its_cause()
    ensures { (words : List (List ℕ)) (fault : WordFault) →
        first_fault words ≡ Some fault ↔ IsCause words fault }
{}

/// Words with which nothing is wrong say a command.
pub fn words_without_a_fault_say_a_command()
    ensures { (words : List (List ℕ)) → first_fault words ≡ None →
        (asked : Asked) × IsCommand words asked }
{}

/// Words that differ in the number of workers alone have the same fault, and their commands the same files, limits and
/// budget.
pub fn all_numbers_of_workers_count_as_one()
    ensures fault { (one other : List (List ℕ)) → DifferInWorkers one other →
        first_fault one ≡ first_fault other }
    ensures command { (one other : List (List ℕ)) (asked too : Asked) →
        DifferInWorkers one other → IsCommand one asked → IsCommand other too →
        AskForOne asked too }
{}
