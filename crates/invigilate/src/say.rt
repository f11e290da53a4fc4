// Answers that more than one call can get.
use station::answer::TallyRefusal;
use std::io;
use text::fault::Fault;

pub(crate) fn say_refused(rt: &HostRuntime, number: u8) -> io::Result<()> {
    println!(rt; "refused\t{number}")
}

pub(crate) fn say_untallied(rt: &HostRuntime, refusal: TallyRefusal) -> io::Result<()> {
    let number = refusal.number();
    match refusal {
        TallyRefusal::Form(Fault { line, field, cause }) => {
            println!(rt; "refused\t{number}\t{line}\t{field}\t{cause}")
        }
        _ => say_refused(rt, number),
    }
}

pub(crate) fn say_unknown(rt: &HostRuntime) -> io::Result<()> {
    println!(rt; "not understood")
}

pub(crate) fn say_none(rt: &HostRuntime) -> io::Result<()> {
    println!(rt; "no sitting is open")
}
