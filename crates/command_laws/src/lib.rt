//! The laws of the program's words. Each function does nothing: its contract is the law.
#![tactic(auto)]

ghost use Rattle.std.specs.Prelude.{◌≡◌, ◌↔◌, IsTrue, List, [], codes};
ghost use Rattle.clap.specs.Faults.{fault_of};
ghost use Rattle.clap.specs.Walk.{Text};
ghost use Rattle.command_line.specs.Command as command_spec;
ghost use Rattle.command_laws.specs.Words as words_spec;

/// The command reads words exactly if it finds no fault in them. A fault is also that words ask for
/// help or for the version.
pub fn read_without_fault()
    ensures { (words : List Text) → IsTrue (command_spec.is_read words)
        ↔ (fault_of command_spec.command words ≡ []) }
{}

/// Behind `clean`, as the only word, an option that takes a number is read exactly if its value is one
/// within the option's bounds.
pub fn numbers_in_bounds()
    ensures workers { words_spec.TakesNumber (codes "workers") 1 16 }
    ensures number { words_spec.TakesNumber (codes "number") 0 9223372036854775807 }
    ensures topics { words_spec.TakesNumber (codes "topics") 2 4000 }
    ensures port { words_spec.TakesNumber (codes "port") 0 65535 }
    ensures connections { words_spec.TakesNumber (codes "connections") 1 1024 }
{}

/// Behind `clean` an option that stands twice, and nothing else, is not read.
pub fn options_stand_once()
    ensures workers { words_spec.StandsOnce (codes "workers") }
    ensures number { words_spec.StandsOnce (codes "number") }
    ensures topics { words_spec.StandsOnce (codes "topics") }
    ensures port { words_spec.StandsOnce (codes "port") }
    ensures connections { words_spec.StandsOnce (codes "connections") }
    ensures out { words_spec.StandsOnce (codes "out") }
{}

/// Behind `clean --` a word is not read.
pub fn two_hyphens_close()
    ensures { words_spec.ClosesOptions }
{}

/// Words that are read name a mode by its name: no other text is taken for one of them.
pub fn mode_is_named()
    ensures { words_spec.NamesMode }
{}

/// The value of `--out`, as the only word behind `clean`, is the folder of the pages.
pub fn folder_is_named()
    ensures { words_spec.NamesFolder }
{}
