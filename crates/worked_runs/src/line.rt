// Lines of a file of cases.

/// What a line of a file of cases says.
#[derive(Drop)]
pub enum Line<'a> {
    /// Nothing: it is empty or a comment.
    Nothing,
    /// `functions`: the lines of script that follow stand in front of each script below.
    Functions,
    /// `COMMAND: POINT`: a case begins.
    Begins { command: &'a str, point: &'a str },
    /// `> TEXT`: a line of the script.
    Script(&'a str),
    /// `+ N "TEXT"`, or `+ "TEXT"` for once: a part of the script that stands there so many times, with no line feeds.
    Part { times: u32, text: &'a str },
    /// `@ TEXT`, or `@* N TEXT`: a line of the event file, so many times.
    Event { times: u32, text: &'a str },
    /// `@+ "TEXT"`: a part of the event file, with no line feed behind it.
    EventPart(&'a str),
    /// `cluster N S`: so many nodes, and so many slots at each.
    Cluster { nodes: u8, slots: u8 },
    /// `= TEXT`, or `* N TEXT`: a line that has to be written, so many times.
    Written { times: u32, text: &'a str },
    /// `! TEXT`: the refusal that has to be told.
    Refusal(&'a str),
    /// `status N`: the status wanted.
    Status(u8),
}

/// A number, then a blank and a text.
fn counted(text: &str) -> Option<(u32, &str)> {
    let (times, rest) = text.split_once(' ')?;
    match times.parse::<u32>() {
        Ok(times) => Some((times, rest)),
        Err(_) => None,
    }
}

/// What stands between two quotation marks.
fn quoted(text: &str) -> Option<&str> {
    let rest = text.strip_prefix('"')?;
    rest.strip_suffix('"')
}

fn part(text: &str) -> Option<Line<'_>> {
    if let Some(text) = quoted(text) {
        return Some(Line::Part { times: 1, text });
    }
    let (times, rest) = counted(text)?;
    let text = quoted(rest)?;
    Some(Line::Part { times, text })
}

fn small_number(text: &str) -> Option<u8> {
    match text.parse::<u8>() {
        Ok(number) => Some(number),
        Err(_) => None,
    }
}

fn status(text: &str) -> Option<Line<'_>> {
    let status = small_number(text)?;
    Some(Line::Status(status))
}

fn cluster(text: &str) -> Option<Line<'_>> {
    let (nodes, slots) = text.split_once(' ')?;
    let nodes = small_number(nodes)?;
    let slots = small_number(slots)?;
    Some(Line::Cluster { nodes, slots })
}

/// What stands behind the mark of a line that is part of the event file.
fn event<'a>(mark: &str, text: &'a str) -> Option<Line<'a>> {
    if mark == "@" {
        return Some(Line::Event { times: 1, text });
    }
    if mark == "@*" {
        let (times, text) = counted(text)?;
        return Some(Line::Event { times, text });
    }
    if mark == "@+" {
        let text = quoted(text)?;
        return Some(Line::EventPart(text));
    }
    None
}

/// A line with a mark in front.
fn marked<'a>(mark: &str, text: &'a str) -> Option<Line<'a>> {
    if mark == ">" {
        return Some(Line::Script(text));
    }
    if mark == "+" {
        return part(text);
    }
    if mark == "=" {
        return Some(Line::Written { times: 1, text });
    }
    if mark == "*" {
        let (times, text) = counted(text)?;
        return Some(Line::Written { times, text });
    }
    if mark == "!" {
        return Some(Line::Refusal(text));
    }
    if mark == "status" {
        return status(text);
    }
    if mark == "cluster" {
        return cluster(text);
    }
    event(mark, text)
}

/// What a line says, or None where it is no line of such a file.
pub fn line_of(line: &str) -> Option<Line<'_>> {
    if line.is_empty() || line.starts_with('#') {
        return Some(Line::Nothing);
    }
    if line == "functions" {
        return Some(Line::Functions);
    }
    if let Some((mark, text)) = line.split_once(' ') {
        if let Some(found) = marked(mark, text) {
            return Some(found);
        }
    }
    let (command, point) = line.split_once(": ")?;
    Some(Line::Begins { command, point })
}
