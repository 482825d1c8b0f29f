//! Scripts of threads that have many writes.
use test_kit::Text;

/// Adds a line so many times.
pub(crate) fn put_times(script: &mut Text, line: &str, times: u64) {
    for _time in 0..times {
        script.put(line);
    }
}

/// Adds a thread that has a line so many times.
pub(crate) fn put_thread(script: &mut Text, line: &str, times: u64) {
    script.put("thread\n");
    put_times(script, line, times);
}

/// Adds a line with this in the place of each `#`.
pub(crate) fn put_line(text: &mut Text, line: &str, number: &str) {
    let mut is_first = true;
    for part in line.split('#') {
        if !is_first {
            text.put(number);
        }
        is_first = false;
        text.put(part);
    }
}
