// What is said of a text that is out of form.
use std::io;
use text::fault::{Cause, Fault};

// What is wrong with a field, in a candidate's words.
fn explain(fault: Fault) -> &'static str {
    match fault.cause {
        Cause::Spelling if fault.field == 1 => "no line begins like this",
        Cause::Spelling => "there is nothing of this name",
        Cause::Digits => "a number has digits only, and no 0 before another digit",
        Cause::Size => "this number is too large or too small for its place",
        Cause::Missing => "a field is missing here",
        Cause::Extra => "there is a field too many here",
        Cause::End => "the last line lacks its newline",
    }
}

pub(crate) fn say_fault(
    rt: &HostRuntime,
    file: &'static str,
    number: u8,
    fault: Fault,
) -> io::Result<()> {
    let Fault { line, field, cause } = fault;
    let why = explain(fault);
    println!(rt; "refused {number}: {file}, line {line}, field {field}, {cause}: {why}")
}
