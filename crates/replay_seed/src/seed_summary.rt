//! The summary of a run.

ghost use Rattle.std.specs.Prelude.{◌≡◌, ℕ, ◌*◌, ◌++◌, Some, decimal, length, OnOk, IfOk};
ghost use Rattle.ft_model.specs.Client.{Client as Seen};
ghost use Rattle.ft_model.specs.World.{client_at};
ghost use Rattle.replay_seed.specs.SummaryText.{first_line as first_lem, client_result, client_results};

use crate::asked::Asked;
use crate::dice::STEP;
use crate::seed_progress::Progress;
use ft_io::NoMemory;
use itoa::Buffer;
use net_schedule::World;
use peer_client::Client;
use sample_servers::AnyService;
use schedule_text::phase_word;
use std::alloc::Global;

/// Appends a text, and a number after it.
fn put_field(name: &str, n: u64, lines: &mut Vec<u8>) -> Result<(), NoMemory>
    ensures { OnOk result (lines.new.items ≡ lines.old.items ++ name.now ++ decimal n) }
{
    let mut number = Buffer::new();
    lines.extend_from_slice(name.as_bytes())?;
    lines.extend_from_slice(number.format(n).as_bytes())?;
    Ok(())
}

/// Appends what was asked for, and the counts of the run.
#[tactic(auto, using(std::proofs::Common::append_assoc), unfolding(crate::specs::SummaryText::first_line))]
fn put_first(asked: Asked, progress: &Progress, lines: &mut Vec<u8>) -> Result<(), NoMemory>
    ensures { OnOk result (lines.new.items
        ≡ lines.old.items ++ first_lem asked.seed asked.clients asked.events progress.now.packets progress.now.boots progress.now.crashes) }
{
    put_field("seed ", asked.seed, lines)?;
    put_field(" clients ", u64::from(asked.clients), lines)?;
    put_field(" events ", u64::from(asked.events), lines)?;
    put_field(" packets ", u64::from(progress.packets), lines)?;
    put_field(" boots ", progress.boots, lines)?;
    put_field(" crashes ", progress.crashes, lines)?;
    lines.push(b'\n')?;
    Ok(())
}

/// Appends the state of a client whose script has `total` bytes.
#[tactic(auto, using(std::proofs::Common::append_assoc), unfolding(crate::specs::SummaryText::client_result))]
fn put_client(n: u8, client: &Client, total: u32, lines: &mut Vec<u8>) -> Result<(), NoMemory>
    requires { total ≡ length client.now.script }
    ensures { OnOk result (lines.new.items ≡ lines.old.items ++ client_result n client.now) }
{
    put_field("client ", u64::from(n), lines)?;
    lines.push(b' ')?;
    lines.extend_from_slice(phase_word(client.phase()).as_bytes())?;
    put_field(" accepted ", client.accepted().len() as u64, lines)?;
    put_field(" of ", u64::from(total), lines)?;
    lines.push(b'\n')?;
    Ok(())
}

/// Returns the summary of a run that is done.
pub(crate) fn summarize(
    alloc: Global,
    asked: Asked,
    world: &World<AnyService>,
    progress: &Progress,
) -> Result<Vec<u8>, NoMemory>
    requires clients { asked.clients ≡ length world.now.clients.items }
    requires totals { (n : ℕ) (c : Seen) → client_at world.now.clients.items n ≡ Some c → length c.script ≡ 1000 * n }
    ensures { IfOk result (λ lines. lines.items
        ≡ first_lem asked.seed asked.clients asked.events progress.now.packets progress.now.boots progress.now.crashes
        ++ client_results 1 world.now.clients.items) }
{
    let mut lines = Vec::new(alloc);
    put_first(asked, progress, &mut lines)?;
    for i in 0..asked.clients {
        if let Some(client) = world.client(i + 1) {
            put_client(i + 1, client, STEP * (u32::from(i) + 1), &mut lines)?;
        }
    }
    Ok(lines)
}
