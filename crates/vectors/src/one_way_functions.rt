use crate::report::Report;
use ciphers::present::Present;
use ciphers::speck::Speck;
use one_way::OneWay;
use one_way::block_cipher::BlockCipher;
use one_way::chain::chain;
use one_way::drill::Drill;
use std::io;
use vocabulary::parameter::Parameter;

/// A published vector of a cipher.
struct Vector {
    case: &'static str,
    key: Parameter,
    text: u64,
    cipher: u64,
}

const SPECK: [Vector; 1] = [Vector {
    case: "Speck64/128",
    key: SPECK_KEY,
    text: SPECK_TEXT,
    cipher: SPECK_CIPHER,
}];

const SPECK_KEY: Parameter = Parameter {
    high: 0x1b1a_1918_1312_1110,
    low: 0x0b0a_0908_0302_0100,
};

const SPECK_TEXT: u64 = 0x3b72_6574_7475_432d;

const SPECK_CIPHER: u64 = 0x8c6f_a548_454e_028b;

const PRESENT: [Vector; 4] = [
    Vector {
        case: "PRESENT-80, key 00.., text 00..",
        key: ZEROS,
        text: 0,
        cipher: 0x5579_c138_7b22_8445,
    },
    Vector {
        case: "PRESENT-80, key ff.., text 00..",
        key: ONES,
        text: 0,
        cipher: 0xe72c_46c0_f594_5049,
    },
    Vector {
        case: "PRESENT-80, key 00.., text ff..",
        key: ZEROS,
        text: u64::MAX,
        cipher: 0xa112_ffc7_2f68_417b,
    },
    Vector {
        case: "PRESENT-80, key ff.., text ff..",
        key: ONES,
        text: u64::MAX,
        cipher: 0x3333_dcd3_2132_10d2,
    },
];

const ZEROS: Parameter = Parameter { high: 0, low: 0 };

const ONES: Parameter = Parameter {
    high: 0xffff,
    low: u64::MAX,
};

/// The published vectors, steps, the greatest high halves and chains.
pub fn run(report: &mut Report<impl Print>) -> io::Result<()> {
    published::<Speck>(report, &SPECK)?;
    published::<Present>(report, &PRESENT)?;
    steps(report)?;
    greatest_high::<Speck>(report, "greatest high half of Speck", u64::MAX)?;
    greatest_high::<Present>(report, "greatest high half of PRESENT", 65_535)?;
    greatest_high::<Drill>(report, "greatest high half of drill", 0)?;
    chains(report)
}

/// What the cipher makes of each vector.
fn published<C: BlockCipher>(
    report: &mut Report<impl Print>,
    vectors: &[Vector],
) -> io::Result<()> {
    for vector in vectors {
        let made = C::encrypt(vector.key, vector.text);
        report.expect(vector.case, made, vector.cipher)?;
    }
    Ok(())
}

/// A step is the encryption XOR the password; PRESENT uses the low 16 bits of the high half.
fn steps(report: &mut Report<impl Print>) -> io::Result<()> {
    report.expect(
        "step of Speck",
        Speck.step(SPECK_KEY, SPECK_TEXT),
        SPECK_CIPHER ^ SPECK_TEXT,
    )?;
    report.expect(
        "step of PRESENT",
        Present.step(ZEROS, u64::MAX),
        PRESENT[2].cipher ^ u64::MAX,
    )?;
    let above = Parameter {
        high: 0x1_0000,
        low: 0,
    };
    report.expect(
        "step of PRESENT, high half 2^16",
        Present.step(above, 0),
        PRESENT[0].cipher,
    )?;
    let wrap = Parameter {
        high: 7,
        low: u64::MAX,
    };
    report.expect("step of drill, past 2^64", Drill.step(wrap, 2), 1)
}

/// The greatest high half that the function states.
fn greatest_high<F: OneWay>(
    report: &mut Report<impl Print>,
    case: &str,
    wanted: u64,
) -> io::Result<()> {
    report.expect(case, F::GREATEST_HIGH, wanted)
}

/// Chains of no, one, eight and more passwords.
fn chains(report: &mut Report<impl Print>) -> io::Result<()> {
    let chain_of = |length| chain(&Drill, Parameter { high: 0, low: 10 }, 100, length);
    report.expect("chain of 0, place 0", chain_of(0)[0], 0)?;
    report.expect("chain of 1, place 0", chain_of(1)[0], 100)?;
    report.expect("chain of 1, place 1", chain_of(1)[1], 0)?;
    report.expect("chain of 8, place 7", chain_of(8)[7], 170)?;
    report.expect("chain of 2^64 - 1, place 7", chain_of(usize::MAX)[7], 170)
}
