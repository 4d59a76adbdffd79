use crate::halt::{Halt, Slip};
use crate::words::number;
use std::alloc::{AllocError, Global};

/// Adds the lines of a text.
fn add(alloc: Global, lines: &mut Vec<String>, text: &str) -> Result<(), AllocError> {
    for line in text.lines() {
        lines.push(String::from_str(alloc, line)?)?;
    }
    Ok(())
}

/// Adds a connection from each element of an array to the next, in this line.
fn add_row(
    alloc: Global,
    lines: &mut Vec<String>,
    line: u32,
    name: &str,
    count: u32,
) -> Result<(), AllocError> {
    for next in 1..count {
        let at = next - 1;
        lines.push(format!(in alloc; "{line}: {name}[{at}].out -> {name}[{next}].in")?)?;
    }
    Ok(())
}

/// So many chains, through 1,024 graphs in a row: from 256 leaves of two latencies to each of other leaves, and what
/// is left over from the host.
fn chains(alloc: Global, lines: &mut Vec<String>, count: u32) -> Result<(), AllocError> {
    let (each, others) = (count / 256, count % 256);
    add(
        alloc,
        lines,
        "unit S latency 3: out stream int out
unit L latency 5: out stream int out
unit T: in stream int in
graph W: in stream int in, out stream int out
2: in -> out
graph G: in stream int in
node s = S[128]
node l = L[128]
node w = W[1024]
3: s.out -> w[0].in
4: l.out -> w[0].in",
    )?;
    add_row(alloc, lines, 5, "w", 1024)?;
    if each > 0 {
        lines.push(format!(in alloc; "node t = T[{each}]")?)?;
        add(alloc, lines, "6: w[1023].out -> t.in")?;
    }
    if others > 0 {
        lines.push(format!(in alloc; "node u = T[{others}]")?)?;
        add(alloc, lines, "7: in -> u.in")?;
    }
    Ok(())
}

/// So many leaves in an array, each with two chains.
fn leaves(alloc: Global, lines: &mut Vec<String>, count: u32) -> Result<(), AllocError> {
    add(
        alloc,
        lines,
        "unit P latency 1: in stream int in, out stream int out
graph G: in stream int in, out stream int out",
    )?;
    lines.push(format!(in alloc; "node a = P[{count}]")?)?;
    add(alloc, lines, "2: in -> a.in\n3: a.out -> out")
}

/// So many connections, none of which leads on, since the graphs where they end have none.
fn connections(alloc: Global, lines: &mut Vec<String>, count: u32) -> Result<(), AllocError> {
    let (each, others) = (count / 4096, count % 4096);
    add(
        alloc,
        lines,
        "graph D: in stream int in
graph G: in stream int in
node d = D[4096]",
    )?;
    for _ in 0..each {
        add(alloc, lines, "2: in -> d.in")?;
    }
    if others > 0 {
        lines.push(format!(in alloc; "node e = D[{others}]")?)?;
        add(alloc, lines, "3: in -> e.in")?;
    }
    Ok(())
}

/// So many written connections, none of which leads on.
fn links(alloc: Global, lines: &mut Vec<String>, count: u32) -> Result<(), AllocError> {
    add(
        alloc,
        lines,
        "graph D: in stream int in
graph G: in stream int in
node d = D",
    )?;
    for _ in 0..count {
        add(alloc, lines, "2: in -> d.in")?;
    }
    Ok(())
}

/// So many instances within one another, the innermost of which is a leaf.
fn nested(alloc: Global, lines: &mut Vec<String>, count: u32) -> Result<(), AllocError> {
    add(
        alloc,
        lines,
        "unit P latency 2: in stream int in, out stream int out",
    )?;
    for step in 1..count {
        let text = if step == 1 {
            "node a = P"
        } else {
            "node a = G"
        };
        add(
            alloc,
            lines,
            "graph G: in stream int in, out stream int out",
        )?;
        add(alloc, lines, text)?;
        add(alloc, lines, "2: in -> a.in\n3: a.out -> out")?;
    }
    Ok(())
}

/// Chains of the host of which each of so many graphs in a row doubles the number.
fn doublings(alloc: Global, lines: &mut Vec<String>, count: u32) -> Result<(), AllocError> {
    add(
        alloc,
        lines,
        "graph D: in stream int in, out stream int out
2: in -> out
3: in -> out
graph G: in stream int in, out stream int out",
    )?;
    lines.push(format!(in alloc; "node d = D[{count}]")?)?;
    add(alloc, lines, "4: in -> d[0].in")?;
    add_row(alloc, lines, 5, "d", count)?;
    let last = count.saturating_sub(1);
    lines.push(format!(in alloc; "6: d[{last}].out -> out")?)?;
    Ok(())
}

/// So many leaves in a row, the last of which is fed by the host, and a way past them.
fn line(alloc: Global, lines: &mut Vec<String>, count: u32) -> Result<(), AllocError> {
    add(
        alloc,
        lines,
        "unit P latency 65536: in stream int in, out stream int out
graph G: in stream int in, out stream int out",
    )?;
    lines.push(format!(in alloc; "node a = P[{count}]")?)?;
    let last = count.saturating_sub(1);
    lines.push(format!(in alloc; "2: in -> a[{last}].in")?)?;
    for next in 1..count {
        let at = next - 1;
        lines.push(format!(in alloc; "3: a[{next}].out -> a[{at}].in")?)?;
    }
    add(alloc, lines, "4: a[0].out -> out\n5: in -> out")
}

/// So many leaves in a ring.
fn cycle(alloc: Global, lines: &mut Vec<String>, count: u32) -> Result<(), AllocError> {
    add(
        alloc,
        lines,
        "unit P: in stream int in, out stream int out
graph G: out stream int out",
    )?;
    lines.push(format!(in alloc; "node a = P[{count}]")?)?;
    add_row(alloc, lines, 2, "a", count)?;
    let last = count.saturating_sub(1);
    lines.push(format!(in alloc; "3: a[{last}].out -> a[0].in")?)?;
    add(alloc, lines, "4: a.out -> [1] -> out")
}

/// So many graphs in a ring.
fn ring(alloc: Global, lines: &mut Vec<String>, count: u32) -> Result<(), AllocError> {
    add(
        alloc,
        lines,
        "graph W: in stream int in, out stream int out
2: in -> out
graph G:",
    )?;
    lines.push(format!(in alloc; "node w = W[{count}]")?)?;
    add_row(alloc, lines, 3, "w", count)?;
    let last = count.saturating_sub(1);
    lines.push(format!(in alloc; "4: w[{last}].out -> w[0].in")?)?;
    Ok(())
}

/// A processor alone with so many endpoints.
fn endpoints(alloc: Global, lines: &mut Vec<String>, count: u32) -> Result<(), AllocError> {
    let mut text = String::from_str(alloc, "unit P: in stream int e0")?;
    for end in 1..count {
        write!(text, ", in stream int e{end}")?;
    }
    lines.push(text)?;
    Ok(())
}

/// The declarations that a generator of this name makes for a number, as `chains 4096`.
pub fn generated(alloc: Global, text: &str) -> Result<Vec<String>, Halt> {
    let mut lines = Vec::new(alloc);
    let Some((name, count)) = text.split_once(' ') else {
        return Err(Halt::Slip(Slip::Generator));
    };
    let count = number(count)?;
    match name {
        "chains" => chains(alloc, &mut lines, count)?,
        "leaves" => leaves(alloc, &mut lines, count)?,
        "connections" => connections(alloc, &mut lines, count)?,
        "links" => links(alloc, &mut lines, count)?,
        "nested" => nested(alloc, &mut lines, count)?,
        "doublings" => doublings(alloc, &mut lines, count)?,
        "line" => line(alloc, &mut lines, count)?,
        "cycle" => cycle(alloc, &mut lines, count)?,
        "ring" => ring(alloc, &mut lines, count)?,
        "endpoints" => endpoints(alloc, &mut lines, count)?,
        _ => return Err(Halt::Slip(Slip::Generator)),
    }
    Ok(lines)
}
