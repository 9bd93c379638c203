//! A service, run over an input to its end: `service NAME`, where `web` is the web server. It prints how many bytes of output the service gave.

ghost use Rattle.std.specs.Prelude.{◌≡◌, string_bytes};
ghost use Rattle.node_bench.specs.Names.{kind_named};

use sample_servers::AnyService;
use server_trait::{CHUNK_LIMIT, Next, Service};
use std::alloc::Global;
use std::io;
use std::io::{ErrorKind, Read};
use web_service::Web;

/// Feeds the service of this name with the input, and prints how much it gave.
pub(crate) fn play<R: AllocGlobal + Print, I: Read>(
    rt: &R,
    name: &str,
    input: &mut I,
) -> io::Result<u8> {
    let len = if name == "web" {
        output_len(rt.alloc(), Web::fresh(rt.alloc(), 0), input)?
    } else {
        let Some(kind) = kind_of(name) else {
            return Err(ErrorKind::InvalidInput.into());
        };
        output_len(rt.alloc(), AnyService::fresh(rt.alloc(), kind), input)?
    };
    println!(rt; "{len}")?;
    Ok(0)
}

/// The kind of the service of this name.
fn kind_of(name: &str) -> Option<u8>
    ensures { result ≡ kind_named name.now }
{
    match name {
        "echo" => Some(1),
        "line" => Some(2),
        "transfer" => Some(3),
        "meter" => Some(4),
        _ => None,
    }
}

/// How many bytes a service gives for an input.
fn output_len<S: Service>(alloc: Global, mut service: S, input: &mut impl Read) -> io::Result<u64> {
    let mut out = Vec::new(alloc);
    feed(&mut service, input, &mut out)
}

/// Feeds a service with an input, in chunks of 2,048 bytes. How many bytes it gives.
fn feed<S: Service>(service: &mut S, input: &mut impl Read, out: &mut Vec<u8>) -> io::Result<u64> {
    let mut chunk = [0; CHUNK_LIMIT];
    let mut len = 0u64;
    for _ in 0..u64::MAX {
        let read = input.read(&mut chunk)?;
        out.clear();
        let Ok(next) = service.take(&chunk[..read], out) else {
            return Err(ErrorKind::OutOfMemory.into());
        };
        len = len.saturating_add(out.len() as u64);
        if next == Next::Close {
            break;
        }
    }
    Ok(len)
}
