// The machine does on a script's code what the script's tasks do, goes on from frames, and counts their steps.

ghost use Rattle.frame_laws.specs.Law.{CompiledTasksDo, StepsFollow};
ghost use Rattle.frame_laws.specs.Resuming.{TasksBegin, FramesGoOn, FramesCount};
ghost use Rattle.frame_laws.specs.Serially.{SerialRunsGoOn};

/// On the code of a script the machine does what a task of one of its functions does, from the task's first state on.
pub fn compiled_tasks_do()
    ensures { CompiledTasksDo }
{}

/// What one instruction does is what the run does next, and from there on the machine does what is left of the run.
pub fn steps_follow()
    ensures { StepsFollow }
{}

/// A task begins with a frame.
pub fn tasks_begin()
    ensures { TasksBegin }
{}

/// From a frame, each instruction leads to a frame: of the same answers, or of one more; or the replay stops there. So an attempt that
/// goes on from a frame that was kept does what it would do if it were run from its start on all of its answers.
pub fn frames_go_on()
    ensures { FramesGoOn }
{}

/// Where a run stops at a frame, it began the steps that the frame has counted and those of the instruction there.
pub fn frames_count()
    ensures { FramesCount }
{}

/// Each instruction goes on with a serial run, too, in which a birth takes the outcome of its own serial run, and a get the outcome itself.
pub fn serial_runs_go_on()
    ensures { SerialRunsGoOn }
{}
