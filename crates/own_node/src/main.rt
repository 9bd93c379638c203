//! `own_node` runs a service of your own as a process over UDP: a server or its logger, by the words of [`run`](node_process::run). The first word is the
//! service. To run your service, add a line for it.
#![tactic(auto)]

use counter_service::Counter;
use mail_service::Mail;
use node_process::{Services, run_program};
use server_trait::Saved;
use std::process::ExitCode;
use std::{env, io};
use web_service::Web;

fn main(rt: HostRuntime) -> io::Result<ExitCode> {
    let words: Vec<String> = env::args(&rt)?.skip(1).collect(rt.alloc())?;
    let Some((service, words)) = words.split_first() else {
        return without_service(&rt);
    };
    match service.as_str() {
        "counter" => Ok(run_own::<Counter>(&rt, words)),
        "web" => Ok(run_own::<Web>(&rt, words)),
        "mail" => Ok(run_own::<Mail>(&rt, words)),
        _ => without_service(&rt),
    }
}

/// Runs a process whose service is `S`.
fn run_own<S: Saved>(rt: &HostRuntime, words: &[String]) -> ExitCode {
    run_program::<S, _, _, _, _>(
        rt,
        Services::Own,
        words,
        rt.stdin(),
        rt.stdout(),
        rt.stderr(),
    )
}

/// Says which services there are. The status is that of words that aren't allowed.
fn without_service(rt: &impl Eprint) -> io::Result<ExitCode> {
    eprintln!(rt; "own_node: the first word is no service: counter, web, mail")?;
    Ok(ExitCode::from(2))
}
