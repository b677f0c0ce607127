use crate::report::Report;
use memory::Memory;
use memory::end_to_end::EndToEnd;
use memory::ram::Ram;
use memory::rom::Rom;
use memory::status_page::StatusPage;
use std::alloc::Global;
use std::io;

/// One address: the byte before a write, the byte written, and the byte read afterwards.
struct Probe {
    address: usize,
    before: u8,
    written: u8,
    after: u8,
}

impl Probe {
    /// The write takes effect as in RAM.
    fn stored(address: usize, before: u8, written: u8) -> Self {
        Probe {
            address,
            before,
            written,
            after: written,
        }
    }

    /// The write has no effect.
    fn kept(address: usize, byte: u8, written: u8) -> Self {
        Probe {
            address,
            before: byte,
            written,
            after: byte,
        }
    }

    /// Reads, writes and reads again at the address.
    fn run(
        self,
        report: &mut Report<impl Print>,
        kind: &str,
        memory: &mut impl Memory,
    ) -> io::Result<()> {
        let Probe {
            address,
            before,
            written,
            after,
        } = self;
        report.heading(format_args!("{kind}, address {address}, write {written:#x}"))?;
        report.expect("  before", memory.read(address), before)?;
        memory.write(address, written);
        report.expect("  after", memory.read(address), after)
    }
}

/// Edge cases of every kind of memory.
pub fn run(report: &mut Report<impl Print>, alloc: Global) -> anyhow::Result<()> {
    for length in [0, 1, 300, 16_384, 20_000] {
        ram(report, alloc, length)?;
    }
    rom(report)?;
    for number in [63, 64, 0x8000_0000_0000_0000] {
        status_page(report, number)?;
    }
    for border in [0, 1, 63, 64, usize::MAX] {
        end_to_end(report, alloc, border)?;
    }
    Ok(())
}

/// RAM of some bytes, all 7: a write of 9 takes effect below the end of the bytes and below 16,384.
fn ram(report: &mut Report<impl Print>, alloc: Global, length: usize) -> anyhow::Result<()> {
    report.heading(format_args!("RAM of {length} bytes"))?;
    let mut bytes = vec![in alloc; 7u8; length]?;
    let mut memory = Ram::new(&mut bytes);
    for address in [0, 1, 299, 300, 16_383, 16_384, 19_999, usize::MAX] {
        let probe = if address < length.min(16_384) {
            Probe::stored(address, 7, 9)
        } else {
            Probe::kept(address, 255, 9)
        };
        probe.run(report, "RAM", &mut memory)?;
    }
    // A count of bytes is a `usize`, which has no `From` into `u64`.
    let changed = bytes.iter().skip(16_384).filter(|byte| **byte != 7).count();
    report.expect("bytes changed past the 16,384th", changed as u64, 0)?;
    Ok(())
}

/// ROM keeps its bytes.
fn rom(report: &mut Report<impl Print>) -> io::Result<()> {
    let mut memory = Rom::new(&[1, 2, 3]);
    for (address, byte) in [(2, 3), (3, 255), (usize::MAX, 255)] {
        Probe::kept(address, byte, 9).run(report, "ROM", &mut memory)?;
    }
    Ok(())
}

/// A status page with some bits set: a write clears bits; a page number of 64 or more is nowhere.
fn status_page(report: &mut Report<impl Print>, number: usize) -> io::Result<()> {
    report.heading(format_args!("status page number {number}"))?;
    let mut bytes = [0xf3; 256];
    let mut memory = StatusPage::new(number, &mut bytes);
    for (address, written, after) in [(16_128, 0x0f, 0xf0), (16_383, 0xff, 0)] {
        let probe = if number == 63 {
            Probe {
                address,
                before: 0xf3,
                written,
                after,
            }
        } else {
            Probe::kept(address, 255, written)
        };
        probe.run(report, "status page", &mut memory)?;
    }
    for address in [0, 16_127, 16_384, 16_640, usize::MAX] {
        Probe::kept(address, 255, 1).run(report, "status page", &mut memory)?;
    }
    Ok(())
}

/// RAM of all addresses below the border and ROM above it, each under its own page number.
fn end_to_end(report: &mut Report<impl Print>, alloc: Global, border: usize) -> anyhow::Result<()> {
    report.heading(format_args!("RAM and ROM end to end, border {border}"))?;
    let mut low = vec![in alloc; 7u8; 16_384]?;
    let high = vec![in alloc; 5u8; 16_384]?;
    let mut memory = EndToEnd::new(border, Ram::new(&mut low), Rom::new(&high));
    for (page, address) in [(0, 255), (1, 511), (62, 16_127), (63, 16_383)] {
        let probe = if page < border {
            Probe::stored(address, 7, 9)
        } else {
            Probe::kept(address, 5, 9)
        };
        probe.run(report, "end to end", &mut memory)?;
    }
    for address in [16_384, usize::MAX] {
        Probe::kept(address, 255, 9).run(report, "end to end", &mut memory)?;
    }
    Ok(())
}
