// Says on standard error what is wrong with an order: the fault in words, and the line that has it.
use quote::request::Request;
use std::fmt;
use std::io::Write;
use texts::faults::{Text, TextFault};

// A fault as this program says it: its number, the file and the line, and what it means.
#[derive(Drop)]
struct Said(TextFault);

impl fmt::Display for Said {
    fn fmt<W: fmt::Write>(&self, f: &mut fmt::Formatter<W>) -> fmt::Result {
        let TextFault { text, line, cause } = self.0;
        let name = match text {
            None => "the call",
            Some(Text::Rules) => "rules.txt",
            Some(Text::Picks) => "picks.txt",
        };
        write!(f, "fault {} in {name}", cause.number())?;
        if let Some(line) = line {
            write!(f, ", line {line}")?;
        }
        write!(f, ": {cause}")
    }
}

// The faulty line as it stands in its text, whatever its bytes are.
fn show_line(rt: &HostRuntime, bytes: &[u8]) -> anyhow::Result<()> {
    let mut out = rt.stderr();
    out.write_all(bytes)?;
    out.write_all(b"\n")?;
    Ok(())
}

pub fn explain(rt: &HostRuntime, request: &Request<'_>) -> anyhow::Result<()> {
    if let Some(fault) = request.first_fault() {
        eprintln!(rt; "muzbelari: {}", Said(fault))?;
    }
    if let Some(line) = request.faulty_line() {
        show_line(rt, line.bytes)?;
    }
    Ok(())
}
