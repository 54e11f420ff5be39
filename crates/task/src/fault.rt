// Why a request makes no task.

ghost use Rattle.std.specs.Prelude.{◌≡◌, ◌++◌, codes};
ghost use Rattle.task.specs.Settings.{out_of_range};
ghost use Rattle.task.specs.declared.fault.TaskFault.TheVariants.{OutOfMemory, Usage};

use std::alloc::AllocError;

/// What is wrong with a request.
#[derive(Clone, Copy)]
pub struct UsageFault {
    /// The setting that is at fault, by its word, or nothing.
    pub word: &'static str,
    /// What is said of it: the rest of a line, with its LF.
    pub complaint: &'static str,
}

/// Why a request makes no task.
#[derive(Clone, Copy)]
pub enum TaskFault {
    /// The first thing that is wrong with it.
    Usage(UsageFault),
    /// Memory ran out.
    OutOfMemory,
}

impl From<UsageFault> for TaskFault {
    ghost from_gives = { λ usage fault. fault ≡ Usage usage };

    fn from(usage: UsageFault) -> TaskFault {
        TaskFault::Usage(usage)
    }
}

impl From<AllocError> for TaskFault {
    ghost from_gives = { λ _ fault. fault ≡ OutOfMemory };

    fn from(_error: AllocError) -> TaskFault {
        TaskFault::OutOfMemory
    }
}

impl UsageFault {
    ghost use Rattle.task.specs.inside.Seen.{fault_text};

    /// What a setting says is outside its range, or no name that it takes.
    pub fn out_of_range(word: &'static str) -> UsageFault
        ensures { fault_text result ≡ out_of_range word.now }
    {
        UsageFault {
            word,
            complaint: ": out of range\n",
        }
    }

    /// Its digits spell more or fewer bytes than the algorithm takes.
    pub(crate) fn wrong_length(word: &'static str) -> UsageFault
        ensures { fault_text result ≡ word.now ++ codes ": wrong length\n" }
    {
        UsageFault {
            word,
            complaint: ": wrong length\n",
        }
    }
}
