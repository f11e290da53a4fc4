// Compares answers of the assembler and the lister with those that were worked out by hand.
#![tactic(auto)]

use assembler::assembler::{AssembleRefusal, assemble};
use assembler::lister::list;
use std::alloc::Global;
use std::fmt::Write;
use text::fault::Fault;

// Its label, a text, and the answer that is due: the words in base sixteen, or the refusal.
struct Case(&'static str, &'static [u8], &'static str);

const ENDS_AND_LINES: &[Case] = &[
    Case("an empty text", b"", "nothing"),
    Case("an empty line", b"\n", "8 1 1 SPELLING"),
    Case("an unended line", b"HALT", "8 1 0 END"),
    Case(
        "an unended line after a good one",
        b"HALT\nHALT",
        "8 2 0 END",
    ),
    Case(
        "an unended line after a bad one",
        b"HALTS\nHALT",
        "8 1 1 SPELLING",
    ),
    Case(
        "an unended line that is wrong besides",
        b"HALT\nHALTS",
        "8 2 0 END",
    ),
    Case("a second empty line", b"HALT\n\n", "8 2 1 SPELLING"),
    Case("a carriage return", b"HALT\r\n", "8 1 1 SPELLING"),
    Case("a blank after an operation", b"HALT \n", "8 1 1 SPELLING"),
    Case("small letters", b"halt\n", "8 1 1 SPELLING"),
    Case("a NUL in a field", b"OUT\tr1\0\n", "8 1 2 SPELLING"),
    Case("a byte above 127", b"OUT\tr1\xff\n", "8 1 2 SPELLING"),
];

const SPELLING_BY_POSITION: &[Case] = &[
    Case("no register as A", b"ADD\tr64\tr1\tr2\n", "8 1 2 SPELLING"),
    Case("no register as B", b"ADD\tr1\tR1\tr2\n", "8 1 3 SPELLING"),
    Case("no register as C", b"ADD\tr1\tr2\tr00\n", "8 1 4 SPELLING"),
    Case(
        "an empty register field",
        b"ADD\tr1\t\tr2\n",
        "8 1 3 SPELLING",
    ),
    Case(
        "the first wrong field counts",
        b"ADD\tq\tq\tq\tq\n",
        "8 1 2 SPELLING",
    ),
    Case(
        "a wrong operation whatever follows",
        b"SUB\tr1\tr2\tr3\tr4\n",
        "8 1 1 SPELLING",
    ),
    Case("no register as R", b"MOVI\tr\t1\t1\n", "8 1 2 SPELLING"),
    Case(
        "no register as the only operand",
        b"OUT\tr64\n",
        "8 1 2 SPELLING",
    ),
    Case(
        "no register as A of two",
        b"READ\tr64\tr1\n",
        "8 1 2 SPELLING",
    ),
    Case(
        "no register as B of two",
        b"WRITE\tr1\tr64\n",
        "8 1 3 SPELLING",
    ),
    Case("a register with a blank", b"OUT\tr1 \n", "8 1 2 SPELLING"),
];

const MISSING_AND_EXTRA: &[Case] = &[
    Case("no A", b"ADD\n", "8 1 2 MISSING"),
    Case("no B", b"ADD\tr1\n", "8 1 3 MISSING"),
    Case("no C", b"ADD\tr1\tr2\n", "8 1 4 MISSING"),
    Case(
        "a wrong A before a missing C",
        b"ADD\tr64\tr2\n",
        "8 1 2 SPELLING",
    ),
    Case("a field after C", b"ADD\tr1\tr2\tr3\tr4\n", "8 1 5 EXTRA"),
    Case("a tab at the end", b"OUT\tr1\t\n", "8 1 3 EXTRA"),
    Case("a field after HALT", b"HALT\t\n", "8 1 2 EXTRA"),
    Case(
        "a field after two registers",
        b"READ\tr1\tr2\tr3\n",
        "8 1 4 EXTRA",
    ),
    Case("no R", b"MOVI\n", "8 1 2 MISSING"),
    Case("no A of one register", b"IN\n", "8 1 2 MISSING"),
    Case("no B of two registers", b"READ\tr1\n", "8 1 3 MISSING"),
    Case("a field after one register", b"IN\tr1\tr2\n", "8 1 3 EXTRA"),
    Case("no I", b"MOVI\tr1\n", "8 1 3 MISSING"),
    Case("no S", b"MOVI\tr1\t1\n", "8 1 4 MISSING"),
    Case("a field after S", b"MOVI\tr1\t1\t1\t1\n", "8 1 5 EXTRA"),
    Case("WORD without its number", b"WORD\n", "8 1 2 MISSING"),
    Case("WORD with two numbers", b"WORD\t1\t2\n", "8 1 3 EXTRA"),
];

const NUMBERS: &[Case] = &[
    Case("the number 0", b"WORD\t0\n", "00000000"),
    Case("the number 00", b"WORD\t00\n", "8 1 2 DIGITS"),
    Case("the largest I", b"MOVI\tr1\t65535\t31\n", "803fffff"),
    Case("an I too large", b"MOVI\tr1\t65536\t31\n", "8 1 3 SIZE"),
    Case("an S too large", b"MOVI\tr1\t65535\t32\n", "8 1 4 SIZE"),
    Case("the largest word", b"WORD\t4294967295\n", "ffffffff"),
    Case("a word too large", b"WORD\t4294967296\n", "8 1 2 SIZE"),
    Case(
        "a hundred digits",
        b"WORD\t7777777777777777777777777777777777777777777777777777777777777777777777777777777777777777777777777777\n",
        "8 1 2 SIZE",
    ),
    Case("an empty number", b"WORD\t\n", "8 1 2 DIGITS"),
    Case("an empty I", b"MOVI\tr1\t\t1\n", "8 1 3 DIGITS"),
    Case("a sign", b"WORD\t-1\n", "8 1 2 DIGITS"),
    Case("digits, then a letter", b"WORD\t1x\n", "8 1 2 DIGITS"),
    Case(
        "a leading zero before a number too large",
        b"WORD\t099999999999999999999\n",
        "8 1 2 DIGITS",
    ),
    Case("an S with a letter", b"MOVI\tr1\t1\tx\n", "8 1 4 DIGITS"),
];

const WORDS: &[Case] = &[
    Case("ADD with aliases", b"ADD\tv0\ta0\ta1\n", "40218800"),
    Case("ADD with numbers", b"ADD\tr1\tr3\tr4\n", "40218800"),
    Case(
        "MOVI to the program counter",
        b"MOVI\tpc\t4\t0\n",
        "87e00080",
    ),
    Case(
        "a register by number and by alias",
        b"ADD\tr63\tpc\tr0\nADD\tpc\tr63\tzz\n",
        "47ff8000 47ff8000",
    ),
    Case("WORD gives any word", b"WORD\t1075939329\n", "40218801"),
];

// Each operation once, and a word that is none's.
const EVERY_OPERATION: Case = Case(
    "every operation and a word",
    b"LOADB\tv0\ta0\ta1\nLOADH\tv1\ts0\tzz\nLOADW\tt0\tsp\tt1\nSTOREB\tx\ty\tz\nSTOREH\tk0\tk1\tzz\nSTOREW\tat0\tat1\tra\nADD\tv0\ta0\ta1\nMUL\ts19\ts18\ts17\nDIV\tt21\tt20\tt19\nNOR\tfp\tgp\tsp\nMOVI\tpc\t4\t0\nCMOV\tpc\tra\ta6\nIN\ts5\nOUT\ta0\nREAD\ta2\ta3\nWRITE\ta4\ta5\nHALT\nWORD\t1075939329\n",
    "00218800 08450000 13df3e00 269aec00 2efc0000 373d7600 40218800 4bae3600 56796200 5f9efc00 87e00080 97fd9200 c1e00000 c8600000 d0a30000 d8e40000 f8000000 40218801",
);

fn show_words(heap: Global, bytes: &[u8]) -> anyhow::Result<String> {
    let (words, _) = bytes.as_chunks::<4>();
    let mut shown = String::new(heap);
    if words.is_empty() {
        shown.push_str("nothing")?;
    }
    for (k, word) in words.iter().enumerate() {
        let before = if k > 0 { " " } else { "" };
        write!(shown, "{before}{:08x}", u32::from_be_bytes(*word))?;
    }
    Ok(shown)
}

fn show_refusal(heap: Global, refusal: AssembleRefusal) -> anyhow::Result<String> {
    let number = refusal.number();
    match refusal {
        AssembleRefusal::Form(Fault { line, field, cause }) => {
            Ok(format!(in heap; "{number} {line} {field} {cause}")?)
        }
        _ => Ok(format!(in heap; "{number}")?),
    }
}

// What assemble answers to a text, where there is room for so many bytes.
fn answer(heap: Global, text: &[u8], room: usize) -> anyhow::Result<String> {
    let mut out = vec![in heap; 0u8; room]?;
    match assemble(text, out.as_mut_slice()) {
        Ok(count) => show_words(heap, &out.as_slice()[..count]),
        Err(refusal) => show_refusal(heap, refusal),
    }
}

fn verdict(got: &str, due: &str) -> &'static str {
    if got == due {
        return "ok";
    }
    "WRONG"
}

// One line: whether the answer is the one that is due, and the answer.
fn compare(rt: &HostRuntime, label: &str, got: &str, due: &str) -> anyhow::Result<()> {
    let verdict = verdict(got, due);
    println!(rt; "{verdict}: {label}: {got}")?;
    Ok(())
}

fn compare_case(rt: &HostRuntime, case: &Case) -> anyhow::Result<()> {
    let Case(label, text, due) = case;
    let got = answer(rt.alloc(), text, 200)?;
    compare(rt, label, got.as_str(), due)
}

fn compare_texts(rt: &HostRuntime) -> anyhow::Result<()> {
    let tables = [
        ENDS_AND_LINES,
        SPELLING_BY_POSITION,
        MISSING_AND_EXTRA,
        NUMBERS,
        WORDS,
    ];
    for table in tables {
        for case in table {
            compare_case(rt, case)?;
        }
    }
    compare_case(rt, &EVERY_OPERATION)
}

// What is answered of a large text, without its words.
fn compare_large(
    rt: &HostRuntime,
    label: &str,
    text: &[u8],
    room: usize,
    due: &str,
) -> anyhow::Result<()> {
    let heap = rt.alloc();
    let mut out = vec![in heap; 0u8; room]?;
    let got = match assemble(text, out.as_mut_slice()) {
        Ok(count) => format!(in heap; "{count} bytes")?,
        Err(refusal) => show_refusal(heap, refusal)?,
    };
    compare(rt, label, got.as_str(), due)
}

// A line of digits of so many bytes with its newline: a push behind the last would take as much memory again.
fn digits_line(heap: Global, size: usize) -> anyhow::Result<Vec<u8>> {
    let mut line = b"7".repeat(heap, size)?;
    if let Some(last) = line.as_mut_slice().last_mut() {
        *last = b'\n';
    }
    Ok(line)
}

fn compare_limits(rt: &HostRuntime) -> anyhow::Result<()> {
    let heap = rt.alloc();
    let full = b"HALT\n".repeat(heap, 3328)?;
    compare_large(rt, "3328 lines", full.as_slice(), 13312, "13312 bytes")?;
    let over = b"HALT\n".repeat(heap, 3329)?;
    compare_large(rt, "3329 lines", over.as_slice(), 13316, "7")?;
    let short = digits_line(heap, 65536)?;
    compare_large(rt, "65536 bytes", short.as_slice(), 4, "8 1 1 SPELLING")?;
    let long = digits_line(heap, 65537)?;
    compare_large(rt, "65537 bytes", long.as_slice(), 4, "7")?;
    compare_large(
        rt,
        "a buffer of just two words",
        b"HALT\nHALT\n",
        8,
        "8 bytes",
    )?;
    compare_large(rt, "a buffer one byte short", b"HALT\nHALT\n", 7, "9")?;
    compare_large(rt, "no buffer and no words", b"", 0, "0 bytes")
}

// What list answers: the text, or its refusal.
fn listing(heap: Global, words: &[u8], room: usize) -> anyhow::Result<String> {
    let mut out = vec![in heap; 0u8; room]?;
    match list(words, out.as_mut_slice()) {
        Ok(count) => Ok(String::from_utf8_lossy(heap, &out.as_slice()[..count])?),
        Err(refusal) => Ok(format!(in heap; "{}", refusal.number())?),
    }
}

fn compare_listing(
    rt: &HostRuntime,
    label: &str,
    words: &[u8],
    room: usize,
    due: &str,
) -> anyhow::Result<()> {
    let got = listing(rt.alloc(), words, room)?;
    if got.as_str() == due {
        println!(rt; "ok: {label}")?;
    } else {
        println!(rt; "WRONG: {label}: {got}")?;
    }
    Ok(())
}

fn compare_listings(rt: &HostRuntime) -> anyhow::Result<()> {
    let heap = rt.alloc();
    compare_listing(
        rt,
        "an exact encoding is listed by its operation",
        b"\x40\x21\x88\x00",
        19,
        "ADD\tv0\ta0\ta1\n",
    )?;
    compare_listing(
        rt,
        "with another unused bit it is listed as a word",
        b"\x40\x21\x88\x01",
        19,
        "WORD\t1075939329\n",
    )?;
    compare_listing(
        rt,
        "an opcode that is none's is listed as a word",
        b"\xff\xff\xff\xff",
        19,
        "WORD\t4294967295\n",
    )?;
    compare_listing(rt, "three bytes are no word", b"\x40\x21\x88", 100, "10")?;
    compare_listing(
        rt,
        "nineteen bytes are due for each word",
        b"\xf8\x00\x00\x00",
        18,
        "9",
    )?;
    compare_listing(rt, "no words, no text", b"", 0, "")?;
    let full = b"\xf8\x00\x00\x00".repeat(heap, 3328)?;
    let lines = b"HALT\n".repeat(heap, 3328)?;
    compare_listing(
        rt,
        "one byte too little for 3328 words",
        full.as_slice(),
        63231,
        "9",
    )?;
    let over = b"\xf8\x00\x00\x00".repeat(heap, 3329)?;
    compare_listing(rt, "3329 words are too many", over.as_slice(), 63251, "7")?;
    let mut out = vec![in heap; 0u8; 63232]?;
    let count = list(full.as_slice(), out.as_mut_slice()).unwrap_or(0);
    if out.as_slice().get(..count) == Some(lines.as_slice()) {
        println!(rt; "ok: 3328 words are listed in 16640 bytes")?;
    } else {
        println!(rt; "WRONG: 3328 words are listed in {count} bytes")?;
    }
    Ok(())
}

// The text of every operation, assembled and listed, is the text again.
fn compare_round_trip(rt: &HostRuntime) -> anyhow::Result<()> {
    let Case(_, every, _) = EVERY_OPERATION;
    let mut words = [0u8; 72];
    let mut text = [0u8; 342];
    let count = assemble(every, &mut words).unwrap_or(0);
    let size = match words.get(..count) {
        Some(part) => list(part, &mut text).unwrap_or(0),
        None => 0,
    };
    if text.get(..size) == Some(every) {
        println!(rt; "ok: every operation and a word are listed as they were written")?;
    } else {
        println!(rt; "WRONG: every operation and a word are listed otherwise")?;
    }
    Ok(())
}

fn main(rt: HostRuntime) -> anyhow::Result<()> {
    compare_texts(&rt)?;
    compare_limits(&rt)?;
    compare_listings(&rt)?;
    compare_round_trip(&rt)
}
