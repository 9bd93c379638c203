//! Transfer gives as many bytes as it is asked for: little input, large output.

ghost use Rattle.std.specs.Prelude.{◌≡◌, ℕ, ◌^◌, ◌<◌, ◌≤◌, ◌+◌, ◌%◌, List, [], ◌∷◌, ◌++◌, length, true, IfOk, OnOk, OnErr};
ghost use Rattle.server_trait.specs.Service.{next_of};
ghost use Rattle.sample_servers.specs.Transfer.{TransferState, held_bytes, held_of, request_of, request_served, bytes_served, pattern};

use ft_io::NoMemory;
use server_trait::{Next, Saved, Service};
use std::alloc::Global;
use std::marker::Model;

/// The most bytes that answer one request.
const SIZE_LIMIT: u32 = 2_047;

/// The pattern's length, in bytes: byte i of all output is i modulo this.
const PERIOD: u8 = 251;

/// The bytes of an incomplete request.
#[derive(Clone, Copy)]
enum Held {
    Nothing,
    One(u8),
    Two(u8, u8),
    Three(u8, u8, u8),
}

/// The transfer service. Its input is requests of four bytes, a big-endian number each, and a request gives as many bytes as it says, at most 2,047: byte i of
/// the whole output is i modulo 251. Request 0 closes. An incomplete request waits for its other bytes, and is ignored at the end of input.
#[derive(Drop)]
pub struct Transfer {
    // How many bytes are written, modulo 251, and so less than 251.
    place: u8,
    // The bytes of an incomplete request.
    held: Held,
}

impl Model for Transfer {
    ghost Value = { TransferState };

    ghost view = { λ transfer. record { place = transfer.place; held = transfer.held } };

    ghost invariant = { λ transfer. transfer.place < 251 };
}

impl Held {
    // These bytes as an incomplete request, if they are fewer than four.
    fn of(bytes: &[u8]) -> Option<Held>
        ensures { result ≡ held_of bytes.now }
    {
        match *bytes {
            [] => Some(Held::Nothing),
            [a] => Some(Held::One(a)),
            [a, b] => Some(Held::Two(a, b)),
            [a, b, c] => Some(Held::Three(a, b, c)),
            _ => None,
        }
    }

    // Appends the bytes.
    fn write(&self, out: &mut Vec<u8>) -> Result<(), NoMemory>
        ensures ok { OnOk result (out.new.items ≡ out.old.items ++ held_bytes self.now) }
        ensures err { OnErr result (out.new.items ≡ out.old.items) }
    {
        match *self {
            Held::Nothing => {}
            Held::One(a) => out.extend_from_slice(&[a])?,
            Held::Two(a, b) => out.extend_from_slice(&[a, b])?,
            Held::Three(a, b, c) => out.extend_from_slice(&[a, b, c])?,
        }
        Ok(())
    }
}

impl Transfer {
    // Takes bytes up to the one that closes.
    #[tactic(auto, using(crate::proofs::Requests::bytes_served_at, crate::proofs::Requests::bytes_served_end, std::proofs::Common::append_assoc))]
    fn take_bytes(&mut self, bytes: &[u8], out: &mut Vec<u8>) -> Result<Next, NoMemory>
        ensures state { IfOk result (λ _. self.new ≡ (bytes_served self.old bytes.now).next) }
        ensures output { IfOk result (λ _. out.new.items ≡ out.old.items ++ (bytes_served self.old bytes.now).output) }
        ensures closed { IfOk result (λ next. next ≡ next_of (bytes_served self.old bytes.now).closed) }
    {
        for byte in bytes {
            if self.take_byte(*byte, out)? == Next::Close {
                return Ok(Next::Close);
            }
        }
        Ok(Next::Go)
    }

    // Takes one byte, and serves the request that it completes.
    #[tactic(auto, using(crate::proofs::Requests::request_alone), unfolding(crate::specs::Transfer::bytes_served))]
    fn take_byte(&mut self, byte: u8, out: &mut Vec<u8>) -> Result<Next, NoMemory>
        ensures state { IfOk result (λ _. self.new ≡ (bytes_served self.old (byte ∷ [])).next) }
        ensures output { IfOk result (λ _. out.new.items ≡ out.old.items ++ (bytes_served self.old (byte ∷ [])).output) }
        ensures closed { IfOk result (λ next. next ≡ next_of (bytes_served self.old (byte ∷ [])).closed) }
    {
        match self.held {
            Held::Nothing => self.held = Held::One(byte),
            Held::One(a) => self.held = Held::Two(a, byte),
            Held::Two(a, b) => self.held = Held::Three(a, b, byte),
            Held::Three(a, b, c) => return self.serve(number(a, b, c, byte), out),
        }
        Ok(Next::Go)
    }

    // Serves one request, after which none is incomplete.
    #[tactic(auto, unfolding(crate::specs::Transfer::request_served))]
    fn serve(&mut self, request: u32, out: &mut Vec<u8>) -> Result<Next, NoMemory>
        ensures state { IfOk result (λ _. self.new ≡ (request_served self.old.place request).next) }
        ensures output { IfOk result (λ _. out.new.items ≡ out.old.items ++ (request_served self.old.place request).output) }
        ensures closed { IfOk result (λ next. next ≡ next_of (request_served self.old.place request).closed) }
    {
        self.held = Held::Nothing;
        if request == 0 {
            return Ok(Next::Close);
        }
        let size = request.min(SIZE_LIMIT);
        write_pattern(self.place, size, out)?;
        self.place = ((u32::from(self.place) + size) % u32::from(PERIOD)) as u8;
        Ok(Next::Go)
    }
}

// The number that four bytes spell.
fn number(a: u8, b: u8, c: u8, d: u8) -> u32
    ensures { result ≡ request_of a b c d }
{
    ((u32::from(a) * 256 + u32::from(b)) * 256 + u32::from(c)) * 256 + u32::from(d)
}

// Appends `size` bytes of the pattern, from this place on.
#[tactic(auto, using(crate::proofs::Patterns::pattern_push), unfolding(crate::specs::Transfer::pattern))]
fn write_pattern(place: u8, size: u32, out: &mut Vec<u8>) -> Result<(), NoMemory>
    ensures { OnOk result (out.new.items ≡ out.old.items ++ pattern place size) }
{
    out.reserve(size as usize)?;
    let mut next = place % PERIOD;
    for i in 0..size {
        out.push(next)?;
        next = following(next);
    }
    Ok(())
}

// The byte of the pattern after this one.
fn following(byte: u8) -> u8
    requires { byte < 251 }
    ensures { result ≡ (byte + 1) % 251 }
{
    if byte == PERIOD - 1 { 0 } else { byte + 1 }
}

impl Service for Transfer {
    ghost use Rattle.std.proofs.Common.{rules};
    ghost use Rattle.sample_servers.specs.Transfer.{transfer_started, transfer_after};
    ghost use Rattle.sample_servers.specs.Lengths.{length-transfer_after-le};
    ghost use Rattle.sample_servers.specs.WrittenBytes.{bytes-transfer};
    ghost use Rattle.server_trait.specs.Service.{short_greeting};

    ghost started = { λ _. transfer_started };

    ghost after = { transfer_after };

    fn greeting(&self) -> &[u8] {
        &[]
    }

    fn fresh(_alloc: Global, _kind: u8) -> Transfer {
        Transfer {
            place: 0,
            held: Held::Nothing,
        }
    }

    fn take(&mut self, chunk: &[u8], out: &mut Vec<u8>) -> Result<Next, NoMemory> {
        if chunk.is_empty() {
            return Ok(Next::Close);
        }
        self.take_bytes(chunk, out)
    }

    ghost closes = { λ _. Prim.search rules };

    ghost greets_shortly = { short_greeting };

    ghost is_short = { length-transfer_after-le };

    ghost writes_bytes = { λ _. bytes-transfer };
}

impl Saved for Transfer {
    ghost use Rattle.sample_servers.specs.Transfer.{transfer_form, transfer_state_of};
    ghost use Rattle.sample_servers.specs.ReadBack.{transfer_reads_back, transfer_one_form};

    ghost is_savable = { true };

    ghost form = { transfer_form };

    ghost state_of = { λ _. transfer_state_of };

    fn savable() -> bool {
        true
    }

    fn save(&self, out: &mut Vec<u8>) -> Result<(), NoMemory> {
        out.push(self.place)?;
        if let Err(full) = self.held.write(out) {
            out.pop();
            return Err(full);
        }
        Ok(())
    }

    fn load(_alloc: Global, _kind: u8, bytes: &[u8]) -> Result<Option<Transfer>, NoMemory> {
        let [place, held @ ..] = bytes else {
            return Ok(None);
        };
        match Held::of(held) {
            Some(held) if *place < PERIOD => Ok(Some(Transfer {
                place: *place,
                held,
            })),
            _ => Ok(None),
        }
    }

    ghost reads_back = { λ _ _. transfer_reads_back };

    ghost one_form = { λ _. transfer_one_form };
}
