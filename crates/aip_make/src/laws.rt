//! Laws of made workloads. A law is a function that does nothing: what it ensures holds of every workload.

ghost use Rattle.aip_make.specs.Schedules.{MadeLinesAreScheduled, MadeLinesRunSo, WorkloadsAreRuns};

/// The line of a made input is a line of a schedule, and is read as that input.
pub fn a_made_line_is_scheduled()
    ensures { MadeLinesAreScheduled }
{}

/// A schedule of made lines has the trace of these lines, and ends so, over every sound topology.
pub fn made_lines_run_so()
    ensures { MadeLinesRunSo }
{}

/// What `made` sums up is the trace of a run: over the text of the made topology, of the schedule of the made lines.
pub fn a_workload_is_a_run()
    ensures { WorkloadsAreRuns }
{}
