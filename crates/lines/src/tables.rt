//! The members of each callback's record (OpenMP 5.2, 19.5.2), and the lines as they are written.

// Each table stands once. Its call names the shape that its rows are put into, and what the shape is given.
//
// A row of members is `field: kind Member`, in the order of the Rust fields. The kinds:
// - `id`: a whole number of 64 bits; `short`: one of at most 32 bits; `thread`: one of at most 8 bits.
// - `id_or_null`: an id, or none. `next`: the same, where the status says which.
// - `truth`: true or false.
// - `status`, `endpoint`, `begin_or_end`, `sync_kind`, `thread_kind`, `dep_kind`: a name.
// - `flags`: a list of names.
// - `path`: a list of numbers of at most 32 bits. `deps`: a list of objects with the members of `Dep`.
// - `claim`: the members of `Claim`, where the record finishes a task.
// - `turns`: the members of `Turns`, in a file of version 2 or 3 where a task runs next.

// The callbacks: the function of the same name, and the name in a file. Those after the semicolon have
// members that the lines of scripts lack.
macro_rules! each_callback {
    ($shape:ident $given:tt) => {
        $shape! {
            $given Callback:
            thread_begin = "thread_begin",
            thread_end = "thread_end",
            parallel_begin = "parallel_begin",
            parallel_end = "parallel_end",
            implicit_task = "implicit_task",
            task_create = "task_create",
            dependences = "dependences",
            sync_region = "sync_region";
            task_schedule = "task_schedule",
            cancel = "cancel"
        }
    };
}

// The members of a variant of `Body`, and of the parts of a record.
macro_rules! members {
    (Record $shape:ident $given:tt) => {
        $shape! { $given Record { thread: thread Thread, seq: short Seq, seen: short Seen } }
    };
    (ThreadBegin $shape:ident $given:tt) => {
        $shape! { $given ThreadBegin { kind: thread_kind Kind } }
    };
    (ThreadEnd $shape:ident $given:tt) => {
        $shape! { $given ThreadEnd {} }
    };
    (ParallelBegin $shape:ident $given:tt) => {
        $shape! {
            $given ParallelBegin { requested: short Requested, task: id Task, parallel: id Parallel }
        }
    };
    (ParallelEnd $shape:ident $given:tt) => {
        $shape! { $given ParallelEnd { task: id Task, parallel: id Parallel } }
    };
    (ImplicitTask $shape:ident $given:tt) => {
        $shape! {
            $given ImplicitTask {
                endpoint: begin_or_end Endpoint,
                actual: short Actual,
                index: short Index,
                flags: flags Flags,
                parallel: id Parallel,
                task: id Task
            }
        }
    };
    (TaskCreate $shape:ident $given:tt) => {
        $shape! {
            $given TaskCreate { deps: truth Deps, flags: flags Flags, task: id Task, child: id Child }
        }
    };
    (Dependences $shape:ident $given:tt) => {
        $shape! { $given Dependences { task: id Task, list: deps List } }
    };
    (Dep $shape:ident $given:tt) => {
        $shape! { $given Dep { kind: dep_kind Type, var: id Var } }
    };
    (TaskSchedule $shape:ident $given:tt) => {
        $shape! {
            $given TaskSchedule {
                status: status Status,
                prior: id Prior,
                next: next Next,
                turns: turns,
                claim: claim
            }
        }
    };
    (SyncRegion $shape:ident $given:tt) => {
        $shape! {
            $given SyncRegion {
                kind: sync_kind Kind,
                endpoint: endpoint Endpoint,
                parallel: id_or_null Parallel,
                task: id Task
            }
        }
    };
    (Cancel $shape:ident $given:tt) => {
        $shape! { $given Cancel { flags: flags Flags, task: id Task, claim: claim } }
    };
    (Turns $shape:ident $given:tt) => {
        $shape! { $given Turns { prior: short PriorTurn, next: short NextTurn } }
    };
    (Claim $shape:ident $given:tt) => {
        $shape! { $given Claim { kept: short Kept, root: id Root, path: path Path } }
    };
}

// The line of each record as it is written, part by part: a text that is the same for all, and then a
// value; where a whole member is the same for all, its text stands before. A record's line begins with a
// brace, which is not in its parts. The members stand in the order of their names (`finishing` and
// `discarding` have a claim, `switching_in_turn` and `finishing_in_turn` have turns). What follows the parts
// is the end of the line, or a tail that several lines share. Reading and writing share it.
macro_rules! line_parts {
    (thread_begin $shape:ident $given:tt $kind:tt $seen:tt $seq:tt $thread:tt) => {
        $shape! {
            $given
            "\"cb\":\"thread_begin\"" ",\"kind\":" thread_kind $kind,
            ",\"seen\":" short $seen,
            ",\"seq\":" short $seq,
            ",\"thread\":" byte $thread;
            end
        }
    };
    (thread_end $shape:ident $given:tt $seen:tt $seq:tt $thread:tt) => {
        $shape! {
            $given
            "\"cb\":\"thread_end\"" ",\"seen\":" short $seen,
            ",\"seq\":" short $seq,
            ",\"thread\":" byte $thread;
            end
        }
    };
    (parallel_begin $shape:ident $given:tt
        $parallel:tt $requested:tt $seen:tt $seq:tt $task:tt $thread:tt
    ) => {
        $shape! {
            $given
            "\"cb\":\"parallel_begin\"" ",\"parallel\":" id $parallel,
            ",\"requested\":" short $requested;
            task_tail $seen $seq $task $thread
        }
    };
    (parallel_end $shape:ident $given:tt $parallel:tt $seen:tt $seq:tt $task:tt $thread:tt) => {
        $shape! {
            $given
            "\"cb\":\"parallel_end\"" ",\"parallel\":" id $parallel;
            task_tail $seen $seq $task $thread
        }
    };
    (implicit_task $shape:ident $given:tt
        $actual:tt $endpoint:tt $flags:tt $index:tt $parallel:tt $seen:tt $seq:tt $task:tt $thread:tt
    ) => {
        $shape! {
            $given
            "\"actual\":" short $actual,
            ",\"cb\":\"implicit_task\"" ",\"endpoint\":" endpoint $endpoint,
            ",\"flags\":" task_flags $flags,
            ",\"index\":" short $index,
            ",\"parallel\":" id $parallel;
            task_tail $seen $seq $task $thread
        }
    };
    (task_create $shape:ident $given:tt
        $child:tt $deps:tt $flags:tt $seen:tt $seq:tt $task:tt $thread:tt
    ) => {
        $shape! {
            $given
            "\"cb\":\"task_create\"" ",\"child\":" id $child,
            ",\"deps\":" truth $deps,
            ",\"flags\":" task_flags $flags;
            task_tail $seen $seq $task $thread
        }
    };
    (dependences $shape:ident $given:tt $list:tt $seen:tt $seq:tt $task:tt $thread:tt) => {
        $shape! {
            $given
            "\"cb\":\"dependences\"" ",\"list\":" deps $list;
            task_tail $seen $seq $task $thread
        }
    };
    (switching $shape:ident $given:tt $next:tt $prior:tt $seen:tt $seq:tt $status:tt $thread:tt) => {
        $shape! {
            $given
            "\"cb\":\"task_schedule\"" ",\"next\":" id_or_null $next,
            ",\"prior\":" id $prior;
            status_tail $seen $seq $status $thread
        }
    };
    (finishing $shape:ident $given:tt
        $kept:tt $next:tt $path:tt $prior:tt $root:tt $seen:tt $seq:tt $status:tt $thread:tt
    ) => {
        $shape! {
            $given
            "\"cb\":\"task_schedule\"" ",\"kept\":" short $kept,
            ",\"next\":" id_or_null $next,
            ",\"path\":" path $path,
            ",\"prior\":" id $prior,
            ",\"root\":" id $root;
            status_tail $seen $seq $status $thread
        }
    };
    (switching_in_turn $shape:ident $given:tt
        $next:tt $next_turn:tt $prior:tt $prior_turn:tt $seen:tt $seq:tt $status:tt $thread:tt
    ) => {
        $shape! {
            $given
            "\"cb\":\"task_schedule\"" ",\"next\":" id_or_null $next,
            ",\"next_turn\":" short $next_turn,
            ",\"prior\":" id $prior,
            ",\"prior_turn\":" short $prior_turn;
            status_tail $seen $seq $status $thread
        }
    };
    (finishing_in_turn $shape:ident $given:tt
        $kept:tt $next:tt $next_turn:tt $path:tt $prior:tt $prior_turn:tt $root:tt
        $seen:tt $seq:tt $status:tt $thread:tt
    ) => {
        $shape! {
            $given
            "\"cb\":\"task_schedule\"" ",\"kept\":" short $kept,
            ",\"next\":" id_or_null $next,
            ",\"next_turn\":" short $next_turn,
            ",\"path\":" path $path,
            ",\"prior\":" id $prior,
            ",\"prior_turn\":" short $prior_turn,
            ",\"root\":" id $root;
            status_tail $seen $seq $status $thread
        }
    };
    (sync_region $shape:ident $given:tt
        $endpoint:tt $kind:tt $parallel:tt $seen:tt $seq:tt $task:tt $thread:tt
    ) => {
        $shape! {
            $given
            "\"cb\":\"sync_region\"" ",\"endpoint\":" endpoint $endpoint,
            ",\"kind\":" sync_kind $kind,
            ",\"parallel\":" id_or_null $parallel;
            task_tail $seen $seq $task $thread
        }
    };
    (cancelling $shape:ident $given:tt $flags:tt $seen:tt $seq:tt $task:tt $thread:tt) => {
        $shape! {
            $given
            "\"cb\":\"cancel\"" ",\"flags\":" cancel_flags $flags;
            task_tail $seen $seq $task $thread
        }
    };
    (discarding $shape:ident $given:tt
        $flags:tt $kept:tt $path:tt $root:tt $seen:tt $seq:tt $task:tt $thread:tt
    ) => {
        $shape! {
            $given
            "\"cb\":\"cancel\"" ",\"flags\":" cancel_flags $flags,
            ",\"kept\":" short $kept,
            ",\"path\":" path $path,
            ",\"root\":" id $root;
            task_tail $seen $seq $task $thread
        }
    };
    (task_tail $shape:ident $given:tt $seen:tt $seq:tt $task:tt $thread:tt) => {
        $shape! {
            $given
            ",\"seen\":" short $seen,
            ",\"seq\":" short $seq,
            ",\"task\":" id $task,
            ",\"thread\":" byte $thread;
            end
        }
    };
    (status_tail $shape:ident $given:tt $seen:tt $seq:tt $status:tt $thread:tt) => {
        $shape! {
            $given
            ",\"seen\":" short $seen,
            ",\"seq\":" short $seq,
            ",\"status\":" status $status,
            ",\"thread\":" byte $thread;
            end
        }
    };
    (header $shape:ident $given:tt $version:tt) => {
        $shape! {
            $given
            "{\"format\":\"task-credit-audit\"" ",\"version\":" short $version;
            end
        }
    };
    (dep $shape:ident $given:tt $kind:tt $var:tt) => {
        $shape! {
            $given
            "{\"type\":" dep_kind $kind,
            ",\"var\":" id $var;
            end
        }
    };
}

pub(crate) use each_callback;
pub(crate) use line_parts;
pub(crate) use members;
