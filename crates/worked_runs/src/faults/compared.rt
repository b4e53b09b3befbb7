// What a run wrote beside what the serial run writes.

/// Whether what the report says of main is what the serial run writes: where main ended with a value or a trap, its prints and its end are those; else its
/// prints are the first of those.
pub fn reads_as_serial(report: &str, serial: &str) -> bool {
    for (line, wanted) in report.split('\n').zip(serial.split('\n')) {
        if line == "main open" || line.starts_with("main fault ") {
            return true;
        }
        if line != wanted {
            return false;
        }
        if line.starts_with("main ") {
            return true;
        }
    }
    false
}

/// Whether the first four lines of both texts are the same.
pub fn begin_alike(report: &str, wanted: &str) -> bool {
    let mut same = 0u32;
    for (line, other) in report.split('\n').zip(wanted.split('\n')) {
        if line != other {
            return false;
        }
        same = same.saturating_add(1);
        if same == 4 {
            return true;
        }
    }
    false
}
