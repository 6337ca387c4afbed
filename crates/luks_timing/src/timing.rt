//! Costs of a new keyslot that take a wanted time on this machine.
ghost use Rattle.std.specs.Prelude.{◌≡◌, ◌≤◌, IfOk, IfErr};
ghost use Rattle.luks_timing.specs.Timed.{AreTimed, IsTimed, IsTimedEdit, IsTimedKdf, IsTimedMaking};
ghost use Rattle.luks_timing.specs.Timed.{IsCostFault, IsEditCostFault, IsKdfFault, IsMakingCostFault};
ghost use Rattle.luks_timing.specs.declared.fault.CostFault.{CostFault};
ghost use Rattle.std.specs.Prelude.{◌≢◌};

use crate::argon2_costs::{Argon2Costs, argon2_costs_in};
use crate::fault::CostFault;
use crate::iterations::iterations_in;
use crate::sample::Sample;
use luks_argon2::Variant;
use luks_kdf::HashName;
use luks_reading::Format;
use luks_request::{
    AskedArgon2, AskedKdf, AskedKind, Command, EditRequest, Editing, Line, Making, NewVersion,
};
use std::alloc::Global;
use std::io::Write;
use std::rt::Clock;

/// How many bytes the key of a keyslot has that is timed: that of a volume key of 64 bytes for XTS.
const KEY_BYTES: usize = 64;

/// How many bytes of a digest are timed: one block of each hash.
const DIGEST_BYTES: usize = 20;

/// The time of a digest, as a part of that of its keyslot: as cryptsetup has it.
const DIGEST_PART: u32 = 8;

/// The most lanes of Argon2 that are timed.
const MOST_LANES: u32 = 4;

/// How long the derivation of a new keyslot is to take, and by which clock.
#[derive(Drop)]
pub struct Timing<'a, C> {
    /// The memory that Argon2 takes where it is timed.
    pub alloc: Global,
    /// The clock.
    pub clock: &'a C,
    /// The time.
    pub milliseconds: u32,
}

impl<C: Clock> Timing<'_, C> {
    /// What the line asks for, with costs that take the wanted time, which are told to `err` as they are
    /// chosen. The volume isn't read for it: an edit's PBKDF2 is timed by SHA-256.
    ///
    /// `Memory` where the memory of Argon2 is refused, `Clock` where the clock can't be read: where nothing is
    /// timed neither comes.
    pub fn line<'b, E: Write>(&self, line: &Line<'b>, err: &mut E) -> Result<Line<'b>, CostFault>
        ensures volume { IfOk result (λ timed. (timed.volume ≡ line.now.volume) × (timed.place ≡ line.now.place)) }
        ensures command { IfOk result (λ timed. IsTimed line.now.command timed.command) }
        ensures fault { IfErr result (IsCostFault line.now.command) }
    {
        Ok(Line {
            volume: line.volume,
            place: line.place,
            command: self.command(line.command, err)?,
        })
    }

    fn command<'b, E: Write>(
        &self,
        command: Command<'b>,
        err: &mut E,
    ) -> Result<Command<'b>, CostFault>
        ensures timed { IfOk result (IsTimed command.entry) }
        ensures fault { IfErr result (IsCostFault command.entry) }
    {
        match command {
            Command::Edit(editing) => Ok(Command::Edit(Editing {
                request: self.request(editing.request, err)?,
                random: editing.random,
                payload: editing.payload,
                over: editing.over,
            })),
            Command::Format(making) => Ok(Command::Format(self.making(making, err)?)),
            command => Ok(command),
        }
    }

    fn request<'b, E: Write>(
        &self,
        request: EditRequest<'b>,
        err: &mut E,
    ) -> Result<EditRequest<'b>, CostFault>
        ensures timed { IfOk result (IsTimedEdit request.entry) }
        ensures fault { IfErr result (IsEditCostFault request.entry) }
    {
        match request {
            EditRequest::Add {
                by_,
                opener,
                memory,
                older,
                new,
                to,
                iterations,
                kdf: Some(asked),
            } => Ok(EditRequest::Add {
                by_,
                opener,
                memory,
                older,
                new,
                to,
                iterations,
                kdf: Some(self.kdf(asked, memory, HashName::Sha256, err)?),
            }),
            EditRequest::AddByKey {
                key,
                memory,
                older,
                new,
                to,
                iterations,
                kdf: Some(asked),
            } => Ok(EditRequest::AddByKey {
                key,
                memory,
                older,
                new,
                to,
                iterations,
                kdf: Some(self.kdf(asked, memory, HashName::Sha256, err)?),
            }),
            EditRequest::Change {
                slot,
                opener,
                memory,
                older,
                new,
                iterations,
                kdf: Some(asked),
            } => Ok(EditRequest::Change {
                slot,
                opener,
                memory,
                older,
                new,
                iterations,
                kdf: Some(self.kdf(asked, memory, HashName::Sha256, err)?),
            }),
            request => Ok(request),
        }
    }

    fn making<'b, E: Write>(&self, making: Making<'b>, err: &mut E) -> Result<Making<'b>, CostFault>
        ensures timed { IfOk result (IsTimedMaking making.entry) }
        ensures fault { IfErr result (IsMakingCostFault making.entry.version making.entry) }
    {
        let hash = making.format.hash;
        let (kdf, iterations) = match making.version {
            NewVersion::Luks1 => (making.kdf, self.iterations(hash, err)?),
            NewVersion::Luks2 => {
                let asked = making.kdf.unwrap_or(AskedKdf::Pbkdf2 {
                    iterations: making.format.iterations,
                });
                let kdf = self.kdf(asked, making.memory, hash, err)?;
                (Some(kdf), self.digest(hash, err)?)
            }
        };
        Ok(Making {
            passphrase: making.passphrase,
            random: making.random,
            version: making.version,
            format: Format { hash, iterations },
            kdf,
            memory: making.memory,
            older: making.older,
            payload: making.payload,
            given: making.given,
            over: making.over,
        })
    }

    /// What is asked for of a keyslot, with costs that take the wanted time, where Argon2 may take `allowed`
    /// MiB.
    fn kdf<E: Write>(
        &self,
        asked: AskedKdf,
        allowed: u32,
        hash: HashName,
        err: &mut E,
    ) -> Result<AskedKdf, CostFault>
        ensures timed { IfOk result (IsTimedKdf allowed asked) }
        ensures fault { IfErr result (IsKdfFault allowed asked) }
    {
        match asked {
            AskedKdf::Pbkdf2 { iterations: _ } => Ok(AskedKdf::Pbkdf2 {
                iterations: self.iterations(hash, err)?,
            }),
            AskedKdf::Argon2(argon2) => {
                let AskedArgon2 { memory, lanes, .. } = argon2;
                if memory < 1 || memory > allowed || lanes < 1 || lanes > MOST_LANES {
                    return Ok(asked);
                }
                Ok(AskedKdf::Argon2(self.argon2(argon2, err)?))
            }
        }
    }

    /// The iterations of a keyslot by PBKDF2.
    fn iterations<E: Write>(&self, hash: HashName, err: &mut E) -> Result<u32, CostFault>
        ensures least { IfOk result (λ n. 1000 ≤ n) }
        ensures fault { IfErr result (λ f. f ≢ CostFault.Memory) }
    {
        let (iterations, sample) = iterations_in(self.clock, hash, KEY_BYTES, self.milliseconds)?;
        let took = milliseconds_of(sample, u64::from(iterations));
        let _ = writeln!(
            err,
            "luks: --iter-time: the keyslot by pbkdf2, {iterations} iterations: about {took} ms on this machine"
        );
        Ok(iterations)
    }

    /// The iterations of the digest of a volume key.
    fn digest<E: Write>(&self, hash: HashName, err: &mut E) -> Result<u32, CostFault>
        ensures least { IfOk result (λ n. 1000 ≤ n) }
        ensures fault { IfErr result (λ f. f ≢ CostFault.Memory) }
    {
        let milliseconds = self.milliseconds / DIGEST_PART;
        let (iterations, sample) = iterations_in(self.clock, hash, DIGEST_BYTES, milliseconds)?;
        let took = milliseconds_of(sample, u64::from(iterations));
        let _ = writeln!(
            err,
            "luks: --iter-time: the digest by {iterations} iterations: about {took} ms"
        );
        Ok(iterations)
    }

    /// The costs of a keyslot by Argon2, its memory in whole MiB.
    #[tactic(auto, using(crate::proofs::TimedFacts::in_mib))]
    fn argon2<E: Write>(&self, asked: AskedArgon2, err: &mut E) -> Result<AskedArgon2, CostFault>
        requires memory { 1 ≤ asked.memory }
        requires some_lane { 1 ≤ asked.lanes }
        requires few_lanes { asked.lanes ≤ 4 }
        ensures { IfOk result (AreTimed asked) }
    {
        let variant = match asked.kind {
            AskedKind::Argon2i => Variant::I,
            AskedKind::Argon2id => Variant::Id,
        };
        let most = asked.memory.saturating_mul(1024);
        let (costs, sample) = argon2_costs_in(
            self.alloc,
            self.clock,
            variant,
            asked.lanes,
            most,
            self.milliseconds,
        )?;
        let timed = AskedArgon2 {
            kind: asked.kind,
            passes: costs.passes,
            memory: costs.memory / 1024,
            lanes: asked.lanes,
        };
        tell_argon2(&timed, costs, sample, err);
        Ok(timed)
    }
}

/// Tells the costs of Argon2 that were chosen by a sample.
fn tell_argon2<E: Write>(timed: &AskedArgon2, costs: Argon2Costs, sample: Sample, err: &mut E) {
    let name = match timed.kind {
        AskedKind::Argon2i => "argon2i",
        AskedKind::Argon2id => "argon2id",
    };
    let (passes, memory, lanes) = (timed.passes, timed.memory, timed.lanes);
    let took = milliseconds_of(sample, u64::from(costs.passes) * u64::from(costs.memory));
    let _ = writeln!(
        err,
        "luks: --iter-time: the keyslot by {name}, memory {memory} MiB, passes {passes}, lanes {lanes}: about {took} ms on this machine"
    );
}

/// How many milliseconds that much work takes, by a sample.
fn milliseconds_of(sample: Sample, work: u64) -> u128 {
    let nanoseconds = u128::from(work) * u128::from(sample.nanoseconds);
    nanoseconds / u128::from(sample.work.max(1)) / 1_000_000
}
