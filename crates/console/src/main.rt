//! Makes the chain of an app with each one-way function, keeps it in RAM and in a status page that lie end to
//! end, and reads it back.
#![tactic(auto)]

use ciphers::present::Present;
use ciphers::speck::Speck;
use memory::Memory;
use memory::end_to_end::EndToEnd;
use memory::ram::Ram;
use memory::status_page::StatusPage;
use one_way::OneWay;
use one_way::chain::chain;
use one_way::drill::Drill;
use std::io;
use vocabulary::parameter::Parameter;

mod rows;

/// The first page of the status page's part.
const BORDER: usize = 32;

/// Half of the chain's bytes lie below the border.
const FIRST: usize = 8_160;

/// What an app brings for its chain.
#[derive(Clone, Copy)]
struct App {
    parameter: Parameter,
    master: u64,
}

impl App {
    /// The app with the halves of its parameter and with its master password.
    fn new(high: u64, low: u64, master: u64) -> Self {
        App {
            parameter: Parameter { high, low },
            master,
        }
    }
}

/// Keeps the chain of the app in the memory, and prints the chain and what the memory then holds.
fn keep(
    rt: &impl Print,
    function: &impl OneWay,
    app: App,
    memory: &mut impl Memory,
) -> io::Result<()> {
    let passwords = chain(function, app.parameter, app.master, 8);
    for (i, password) in passwords.iter().enumerate() {
        println!(rt; "  place {i}: {password:016x}")?;
        rows::store(memory, FIRST + 8 * i, &password.to_be_bytes());
    }
    let mut bytes = [0u8; 64];
    rows::load(memory, FIRST, &mut bytes);
    let (first_page, _) = memory::address::split(FIRST);
    let (last_page, _) = memory::address::split(FIRST + 63);
    println!(rt;
        "  kept from address {FIRST} on, in pages {first_page} to {last_page}; read back:"
    )?;
    for row in bytes.chunks(16) {
        print!(rt; " ")?;
        for byte in row {
            print!(rt; " {byte:02x}")?;
        }
        println!(rt; "")?;
    }
    Ok(())
}

/// Keeps the chain in new RAM below the border, and in a status page with all bits set above it.
fn show(rt: &impl Print, name: &str, function: &impl OneWay, app: App) -> io::Result<()> {
    println!(rt;
        "{name}, parameter {}, master {}",
        app.parameter, app.master
    )?;
    let mut ram = [0; 8_192];
    let mut status = [255; 256];
    let (low, high) = (Ram::new(&mut ram), StatusPage::new(BORDER, &mut status));
    keep(rt, function, app, &mut EndToEnd::new(BORDER, low, high))
}

fn main(rt: HostRuntime) -> io::Result<()> {
    show(&rt, "drill", &Drill, App::new(0, 10, 100))?;
    show(&rt, "Speck64/128", &Speck, App::new(1_234, 5_678, 100))?;
    show(&rt, "PRESENT-80", &Present, App::new(65_535, 5_678, 100))
}
