// A whole net sheet.
ghost use Rattle.nets.specs.Forms.{header_of};
ghost use Rattle.fields.specs.Header.FirstLines.{HeaderHeld};
ghost use Rattle.net_sheets.specs.Reader.NetReading.{NetReads, NetRest, from_heading, from_gates};

use crate::reader::gates::gate_lines;
use crate::reader::references::earlier_used;
use answers::refusal::{Kind, Refusal};
use fields::header::first_lines::header_lines;
use fields::runs::NEWLINE;
use fields::words::three_words;
use nets::forms::{Header, Net};

// A net sheet that was read.
#[derive(Clone, Copy)]
pub struct NetRead {
    pub header: Header,
    pub net: Net,
}

// Reads a net sheet from its first gate line on.
pub fn from_gates(s: &[u8], at: usize, header: Header) -> Result<NetRead, Refusal>
    requires { HeaderHeld s.now header }
    ensures { NetRest s.now at (from_gates (header_of s.now header)) result }
{
    let read = gate_lines(s, at, header)?;
    let net = read.net;
    if read.next < s.len() {
        return Err(Refusal {
            kind: Kind::Layout,
            place: read.next,
        });
    }
    if !earlier_used(&read.used, net.inputs, net.gates) {
        return Err(Refusal {
            kind: Kind::UnusedGate,
            place: read.next,
        });
    }
    Ok(NetRead { header, net })
}

// Reads a net sheet from line 4 on.
pub fn from_heading(s: &[u8], at: usize, header: Header) -> Result<NetRead, Refusal>
    requires { HeaderHeld s.now header }
    ensures { NetRest s.now at (from_heading (header_of s.now header)) result }
{
    let words = three_words(s, at, b"left", b"right", b"table")?;
    from_gates(s, words.next, header)
}

// Reads a net sheet. It may be any bytes of any length.
pub fn read_net(s: &[u8]) -> Result<NetRead, Refusal>
    ensures { NetReads s.now result }
{
    let read = header_lines(s, NEWLINE)?;
    from_heading(s, read.next, read.header)
}
