// The program of document 01: reads the files `module` and `form` of the folder that it is run in and prints the lines that `report` makes
// of their bytes. A file that cannot be read gets a message on standard error and no line.
#![tactic(auto)]

ghost use Rattle.std.specs.Prelude.{◌≡◌, ◌<◌, ◌≤◌, length, take, ℕ, IfOk, OnErr, IsSome};
ghost use Rattle.std.specs.Io.{ReadsAtMost};
ghost use Rattle.std.specs.Io.KnownBytes.{Consumes, IsAtEnd};
ghost use Rattle.matcher.specs.Got.{count_of, IsAll};

use anyhow::{Context, Result, bail};
use report::REPORT_BYTES;
use rules::limits::{BLOCK_BYTES, MOST_BLOCKS};
use state::Machine;
use std::io::{Read, Write};
use std::rt::Files;
use std::{fs, io};

// One byte more than a module or a form may have: of a longer one no more is needed (`enough` in report's specs/Enough.antt).
const FILE_BUFFER: usize = MOST_BLOCKS * BLOCK_BYTES + 1;

const FORM_BUFFER: usize = Machine::MOST_FORM + 1;

// How many bytes were read: all, the whole file or a full buffer, or those of a file that goes on behind them. Of a full buffer it is
// stated that it is all. Of a shorter reading it is stated of a reader whose bytes a contract can name (`R.remaining`), as one over
// memory; where a file ends, no contract can say.
#[derive(Clone, Copy)]
enum Got {
    All(usize),
    Part(usize),
}

// Reads until the buffer is full or the file ends, and says how many bytes it put at the buffer's start: the file's next bytes. The only
// errors are those of the file's own readings.
fn fill<R: Read>(file: &mut R, buf: &mut [u8]) -> io::Result<usize>
    ensures within { ReadsAtMost result buf.new }
    ensures bytes { IfOk result (λ count. Consumes (R.remaining file.old) (R.remaining file.new) (take count buf.new)) }
    ensures end { IfOk result (λ count. count < length buf.new → IsAtEnd (R.remaining file.new)) }
    ensures err { OnErr result ((n : ℕ) × Consumes (R.remaining file.old) (R.remaining file.new) (take n buf.new)) }
{
    let mut count = 0;
    // (a reading says itself how far it comes: a `while`)
    while count < buf.len() {
        let more = file.read(&mut buf[count..])?;
        if more == 0 {
            break;
        }
        count += more;
    }
    Ok(count)
}

// Of an open file. Reading on at its end gives nothing. After an error too, what the file has lost stands at the buffer's start.
fn read_open<R: Read>(file: &mut R, buf: &mut [u8]) -> io::Result<Got>
    ensures within { IfOk result (λ got. count_of got ≤ length buf.new) }
    ensures prefix { IfOk result (λ got. count_of got ≡ length (take (count_of got) buf.new)) }
    ensures all { IfOk result (λ got. 0 < count_of got → count_of got ≡ length buf.new → IsAll got) }
    ensures known { IfOk result (λ got. IsSome (R.remaining file.old) → IsAll got) }
    ensures bytes { IfOk result (λ got. IsAll got → Consumes (R.remaining file.old) (R.remaining file.new) (take (count_of got) buf.new)) }
    ensures end { IfOk result (λ got. IsAll got → count_of got < length buf.new → IsAtEnd (R.remaining file.new)) }
    ensures err { OnErr result ((n : ℕ) × Consumes (R.remaining file.old) (R.remaining file.new) (take n buf.new)) }
{
    let count = fill(file, buf)?;
    let mut next = [0u8; 1];
    if count == buf.len() || file.read(&mut next)? == 0 {
        Ok(Got::All(count))
    } else {
        Ok(Got::Part(count))
    }
}

// The first bytes of a file, as many as the buffer holds.
fn read(files: &impl Files, name: &str, buf: &mut [u8]) -> io::Result<Got>
    ensures within { IfOk result (λ got. count_of got ≤ length buf.new) }
    ensures prefix { IfOk result (λ got. count_of got ≡ length (take (count_of got) buf.new)) }
    ensures all { IfOk result (λ got. 0 < count_of got → count_of got ≡ length buf.new → IsAll got) }
{
    let mut file = fs::open(files, name)?;
    read_open(&mut file, buf)
}

fn main(rt: HostRuntime) -> Result<()> {
    let mut file = [0u8; FILE_BUFFER];
    let mut form = [0u8; FORM_BUFFER];
    let mut text = [0u8; REPORT_BYTES];
    let module = read(&rt, "module", &mut file).context("module")?;
    let input = read(&rt, "form", &mut form).context("form")?;
    let (Got::All(n), Got::All(k)) = (module, input) else {
        bail!("a file that goes on while it is read cannot be read");
    };
    let end = report::report(&file[..n], &form[..k], &mut text);
    rt.stdout()
        .write_all(&text[..end])
        .context("standard output")
}
