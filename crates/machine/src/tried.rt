ghost use Rattle.std.specs.Prelude.{◌≡◌};
ghost use Rattle.machine.specs.Tried.{bench, enroll_run, enroll_run_lines, lines, network_run, network_run_lines};

/// The definitions tried on recorded runs, line by line.
pub fn recorded_runs()
    ensures enrolls { lines bench enroll_run ≡ enroll_run_lines }
    ensures network { lines bench network_run ≡ network_run_lines }
{}
