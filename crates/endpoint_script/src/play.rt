//! The playing of a case, step by step.

use crate::hostile::{Attack, Tally};
use crate::joined::join;
use crate::scene::{Met, Miss, Scene, differs};
use crate::script::{Action, Script, Step};
use crate::words::Why;
use std::alloc::Global;

/// Ends the turn of an endpoint, where one is opened.
fn end_turn(scene: &mut Option<Scene>) -> Met {
    match scene {
        Some(scene) => scene.end_turn(),
        None => Ok(()),
    }
}

/// Opens an endpoint, or acts on the one that is opened.
fn act(alloc: Global, scene: &mut Option<Scene>, action: Action<'_>) -> Met {
    match action {
        Action::Open(opening) => {
            end_turn(scene)?;
            *scene = Some(Scene::new(alloc, opening)?);
            Ok(())
        }
        Action::Deed(deed) => match scene {
            Some(scene) => scene.act(deed),
            None => Err(Miss::Refused(Why::NoEndpoint)),
        },
        _ => Err(Miss::Refused(Why::Place)),
    }
}

/// Attacks an endpoint that begins as a way leaves it. None is opened yet.
fn attack_end(
    alloc: Global,
    steps: &[Step<'_>],
    scene: &mut Option<Scene>,
    attack: &mut Attack,
) -> Met {
    for step in steps {
        act(alloc, scene, step.action)?;
    }
    end_turn(scene)?;
    match scene {
        Some(scene) => attack.meet(scene),
        None => Err(Miss::Refused(Why::NoEndpoint)),
    }
}

/// Attacks an endpoint of its own that begins as a way with these steps leaves it.
fn attack_way(alloc: Global, steps: &[Step<'_>], attack: &mut Attack) -> Met {
    let mut scene = None;
    attack_end(alloc, steps, &mut scene, attack)
}

/// Attacks endpoints that begin as the ways among the first parts leave them, one after the other, until no datagram is left.
fn attack_ways(alloc: Global, script: &Script<'_>, parts: usize, attack: &mut Attack) -> Met {
    for turn in 0..usize::MAX {
        if attack.number == attack.count {
            break;
        }
        let number = turn % parts.max(1);
        if script.is_way(number) {
            attack_way(alloc, script.steps_of(number), attack)?;
        }
    }
    Ok(())
}

/// A case that is being played.
#[derive(Drop)]
pub(crate) struct Play {
    scene: Option<Scene>,
    pub(crate) tally: Tally,
    /// The line of the last step.
    pub(crate) line: u32,
}

impl Play {
    /// No case was played yet.
    pub(crate) fn new() -> Play {
        Play {
            scene: None,
            tally: Tally::new(),
            line: 0,
        }
    }

    /// Plays the case with this number. By its end the script must have named all segments that were sent.
    pub(crate) fn play(&mut self, alloc: Global, script: &Script<'_>, number: usize) -> Met {
        self.scene = None;
        for step in script.steps_of(number) {
            self.line = step.line;
            match step.action {
                Action::Join(joined) => join(alloc, joined)?,
                Action::Hostile(hostile) => {
                    let mut attack = Attack::new(hostile, self.tally);
                    attack_ways(alloc, script, hostile.parts, &mut attack)?;
                    self.tally = attack.tally;
                }
                Action::Tally(counted, least) => {
                    let found = self.tally.count(counted);
                    if found < least {
                        return differs(alloc, found);
                    }
                }
                _ => act(alloc, &mut self.scene, step.action)?,
            }
        }
        end_turn(&mut self.scene)
    }
}
