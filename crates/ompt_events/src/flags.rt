//! The flags of a task and of a cancellation, as sets of named bits.
ghost use Rattle.std.specs.Prelude.{◌≡◌, ⊤};
ghost use Rattle.ompt_events.specs.Flags.{task_flags, cancel_flags, are_named};

use bitflags::{Flag, Flags, bitflag_items};

/// The kind of task that a record is about (OpenMP 5.2, `ompt_task_flag_t`). Any bits may be set here; in a
/// trace only named ones are.
#[derive(Clone, Copy, Debug, PartialEq, Eq)]
pub struct TaskFlags(pub u32);

bitflag_items! {
    impl TaskFlags: u32 {
        const INITIAL = 0x1;
        const IMPLICIT = 0x2;
        const EXPLICIT = 0x4;
        const TARGET = 0x8;
        const TASKWAIT = 0x10;
        const UNDEFERRED = 0x0800_0000;
        const UNTIED = 0x1000_0000;
        const FINAL = 0x2000_0000;
        const MERGEABLE = 0x4000_0000;
        const MERGED = 0x8000_0000;
    }
}

impl TaskFlags {
    /// All bits that have a name.
    const NAMED_BITS: u32 = 0xf800_001f;

    /// The flags under the names that they have in a file, in the order in which a file lists them.
    const NAMED: &'static [Flag<TaskFlags>] = &[
        Flag {
            name: "initial",
            value: TaskFlags::INITIAL,
        },
        Flag {
            name: "implicit",
            value: TaskFlags::IMPLICIT,
        },
        Flag {
            name: "explicit",
            value: TaskFlags::EXPLICIT,
        },
        Flag {
            name: "target",
            value: TaskFlags::TARGET,
        },
        Flag {
            name: "taskwait",
            value: TaskFlags::TASKWAIT,
        },
        Flag {
            name: "undeferred",
            value: TaskFlags::UNDEFERRED,
        },
        Flag {
            name: "untied",
            value: TaskFlags::UNTIED,
        },
        Flag {
            name: "final",
            value: TaskFlags::FINAL,
        },
        Flag {
            name: "mergeable",
            value: TaskFlags::MERGEABLE,
        },
        Flag {
            name: "merged",
            value: TaskFlags::MERGED,
        },
    ];

    /// Returns whether each bit that is set has a name.
    pub fn are_named(self) -> bool
        ensures { result ≡ are_named task_flags self.0 }
    {
        self.0 & TaskFlags::NAMED_BITS == self.0
    }
}

impl Flags for TaskFlags {
    type Bits = u32;

    ghost exact = { ⊤ };

    ghost table = { task_flags };

    ghost set_of = { λ flags. flags.0 };

    fn flags<'a>() -> &'a [Flag<TaskFlags>] {
        TaskFlags::NAMED
    }

    fn bits(&self) -> u32 {
        self.0
    }

    fn from_bits_retain(bits: u32) -> TaskFlags {
        TaskFlags(bits)
    }
}

/// What is cancelled, and how far the cancellation has come (OpenMP 5.2, `ompt_cancel_flag_t`). Any bits may
/// be set here; in a trace only named ones are.
#[derive(Clone, Copy, Debug, PartialEq, Eq)]
pub struct CancelFlags(pub u32);

bitflag_items! {
    impl CancelFlags: u32 {
        const PARALLEL = 0x1;
        const SECTIONS = 0x2;
        const LOOP = 0x4;
        const TASKGROUP = 0x8;
        const ACTIVATED = 0x10;
        const DETECTED = 0x20;
        const DISCARDED_TASK = 0x40;
    }
}

impl CancelFlags {
    /// All bits that have a name.
    const NAMED_BITS: u32 = 0x7f;

    /// The flags under the names that they have in a file, in the order in which a file lists them.
    const NAMED: &'static [Flag<CancelFlags>] = &[
        Flag {
            name: "parallel",
            value: CancelFlags::PARALLEL,
        },
        Flag {
            name: "sections",
            value: CancelFlags::SECTIONS,
        },
        Flag {
            name: "loop",
            value: CancelFlags::LOOP,
        },
        Flag {
            name: "taskgroup",
            value: CancelFlags::TASKGROUP,
        },
        Flag {
            name: "activated",
            value: CancelFlags::ACTIVATED,
        },
        Flag {
            name: "detected",
            value: CancelFlags::DETECTED,
        },
        Flag {
            name: "discarded_task",
            value: CancelFlags::DISCARDED_TASK,
        },
    ];

    /// Returns whether each bit that is set has a name.
    pub fn are_named(self) -> bool
        ensures { result ≡ are_named cancel_flags self.0 }
    {
        self.0 & CancelFlags::NAMED_BITS == self.0
    }
}

impl Flags for CancelFlags {
    type Bits = u32;

    ghost exact = { ⊤ };

    ghost table = { cancel_flags };

    ghost set_of = { λ flags. flags.0 };

    fn flags<'a>() -> &'a [Flag<CancelFlags>] {
        CancelFlags::NAMED
    }

    fn bits(&self) -> u32 {
        self.0
    }

    fn from_bits_retain(bits: u32) -> CancelFlags {
        CancelFlags(bits)
    }
}
