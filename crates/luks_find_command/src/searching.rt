//! A device is searched, and each volume told as soon as it is found.
ghost use Rattle.std.specs.Prelude.{◌≡◌, ◌≢◌, ◌+◌, ◌++◌, ◌<◌, ◌≤◌, ◌^◌, ◌⊎◌, ◌∷◌, [], length, IfErr, IfOk, OnErr, OnOk};
ghost use Rattle.luks_area.specs.Device.{IsSettled, IsUnchanged};
ghost use Rattle.luks_finding.specs.Finding.{looks_from, GoesOn};
ghost use Rattle.luks_finding.specs.Readable.{AreReadTo};
ghost use Rattle.luks_finding.specs.declared.find_fault.FindFault.{FindFault};
ghost use Rattle.luks_find_command.specs.Searches.{starts_in, told_of, GoesOnTelling, IsToldAll, IsToldCalmly, IsToldFirst, LieInside, PassesBy, SearchesAll, SearchesFirst, SearchesOn, TellsStepBy};
ghost use Rattle.luks_find_command.specs.Stops.{PrintsBy, StopsBy};
ghost use Rattle.luks_find_command.specs.declared.stop.Stop.{Stop};

use crate::met::{MOST_MET, Met};
use crate::notes::note_fault;
use crate::progress::Progress;
use crate::searched::Searched;
use crate::stop::Stop;
use crate::telling::{tell, tell_unread};
use crate::unread::unread_of;
use arrayvec::ArrayVec;
use luks_commands::Printer;
use luks_finding::{FindFault, Finding, Further, Step};
use luks_reading::Device;
use std::alloc::{AllocError, Global};
use std::io::Write;

/// Tells the volumes that a step of the search found.
fn tell_step<D: Device, P: Printer, E: Write, G: Progress>(
    alloc: Global,
    device: D,
    step: Step,
    met: &mut ArrayVec<Met, MOST_MET>,
    file: &Searched<'_>,
    out: &mut P,
    err: &mut E,
    progress: &mut G,
) -> (D, Result<(), Stop>)
    requires inside { LieInside (D.size device) step }
    requires room { D.failed device + 1 < 2 ^ 64 }
    requires settled { D.tells → IsSettled D.unsettled device }
    requires printer { P.failures out.old + 1 < 2 ^ 64 }
    ensures unchanged { IsUnchanged D.tells D.size D.bytes D.unsettled device result.0 }
    ensures failing { D.failed device ≤ D.failed result.0 }
    ensures counts { IfErr result.1 (λ stop. StopsBy stop (D.failed device) (D.failed result.0)
        (P.failures out.old) (P.failures out.new)) }
    ensures kinds { IfErr result.1 (λ stop. stop ≢ Stop.Device) }
    ensures count { OnOk result.1 (P.failures out.new ≡ P.failures out.old) }
    ensures heard { G.heard progress.new ≡ G.heard progress.old }
    ensures told { D.tells → TellsStepBy (D.failed device < D.failed result.0) file.now.offset (D.bytes device)
        (starts_in step) (told_of (P.printed out.old) met.old.items (G.paired progress.old))
        (told_of (P.printed out.new) met.new.items (G.paired progress.new)) result.1 }
{
    match step {
        Step::Start(start) => tell(alloc, device, start, met, file, out, err, progress),
        Step::Two(first, second) => {
            let (device, told) = tell(alloc, device, first, met, file, out, err, progress);
            match told {
                Ok(()) => tell_second(alloc, device, second, met, file, out, err, progress),
                Err(stop) => (device, Err(stop)),
            }
        }
        Step::On | Step::End => (device, Ok(())),
    }
}

/// Tells a volume behind another one, after which the device may not be asked any more.
fn tell_second<D: Device, P: Printer, E: Write, G: Progress>(
    alloc: Global,
    device: D,
    start: u64,
    met: &mut ArrayVec<Met, MOST_MET>,
    file: &Searched<'_>,
    out: &mut P,
    err: &mut E,
    progress: &mut G,
) -> (D, Result<(), Stop>)
    requires inside { start ≤ D.size device }
    requires settled { D.tells → IsSettled D.unsettled device }
    requires printer { P.failures out.old + 1 < 2 ^ 64 }
    ensures unchanged { IsUnchanged D.tells D.size D.bytes D.unsettled device result.0 }
    ensures failing { D.failed device ≤ D.failed result.0 }
    ensures counts { IfErr result.1 (λ stop. StopsBy stop (D.failed device) (D.failed result.0)
        (P.failures out.old) (P.failures out.new)) }
    ensures kinds { IfErr result.1 (λ stop. stop ≢ Stop.Device) }
    ensures count { OnOk result.1 (P.failures out.new ≡ P.failures out.old) }
    ensures heard { G.heard progress.new ≡ G.heard progress.old }
    ensures told { D.tells → TellsStepBy ((2 ^ 64 ≤ D.failed device + 1) ⊎ (D.failed device < D.failed result.0))
        file.now.offset (D.bytes device) (start ∷ [])
        (told_of (P.printed out.old) met.old.items (G.paired progress.old))
        (told_of (P.printed out.new) met.new.items (G.paired progress.new)) result.1 }
{
    if device.failures() == u64::MAX {
        let told = tell_unread(start, file, out, err);
        (device, told)
    } else {
        tell(alloc, device, start, met, file, out, err, progress)
    }
}

/// How many volumes a step of the search found.
fn count_of(step: Step) -> u64
    ensures { result ≡ length (starts_in step) }
{
    match step {
        Step::Start(_) => 1,
        Step::Two(_, _) => 2,
        Step::On | Step::End => 0,
    }
}

/// Puts them at the end of the list.
fn keep(told: &mut Vec<u64>, step: Step) -> Result<(), AllocError>
    ensures { OnOk result (told.new.items ≡ told.old.items ++ starts_in step) }
{
    match step {
        Step::Start(start) => told.push(start)?,
        Step::Two(first, second) => {
            told.push(first)?;
            told.push(second)?;
        }
        Step::On | Step::End => {}
    }
    Ok(())
}

/// How far a search is.
#[derive(Drop)]
struct Searching {
    finding: Finding,
    /// What was told.
    told: Vec<u64>,
    /// The first of these that are accepted, each with another uuid.
    met: ArrayVec<Met, MOST_MET>,
}

/// A search that begins.
fn begin(alloc: Global) -> Result<Searching, AllocError>
    ensures from { IfOk result (λ begun. looks_from begun.finding ≡ 0) }
    ensures told { IfOk result (λ begun. begun.told.items ≡ []) }
    ensures met { IfOk result (λ begun. begun.met.items ≡ []) }
{
    Ok(Searching {
        finding: Finding::new(alloc)?,
        told: Vec::new(alloc),
        met: ArrayVec::new(),
    })
}

/// What is shown of the search makes room, where a step found some.
fn make_room<G: Progress>(step: Step, progress: &mut G)
    ensures heard { G.heard progress.new ≡ G.heard progress.old }
    ensures paired { G.paired progress.new ≡ G.paired progress.old }
{
    if count_of(step) > 0 {
        progress.clear();
    }
}

/// Tells the volumes that a step found, and keeps them.
fn take_step<D: Device, P: Printer, E: Write, G: Progress>(
    alloc: Global,
    device: D,
    step: Step,
    searching: &mut Searching,
    file: &Searched<'_>,
    out: &mut P,
    err: &mut E,
    progress: &mut G,
) -> (D, Result<(), Stop>)
    requires inside { LieInside (D.size device) step }
    requires room { D.failed device + 1 < 2 ^ 64 }
    requires settled { D.tells → IsSettled D.unsettled device }
    requires printer { P.failures out.old + 1 < 2 ^ 64 }
    ensures unchanged { IsUnchanged D.tells D.size D.bytes D.unsettled device result.0 }
    ensures failing { D.failed device ≤ D.failed result.0 }
    ensures counts { IfErr result.1 (λ stop. StopsBy stop (D.failed device) (D.failed result.0)
        (P.failures out.old) (P.failures out.new)) }
    ensures kinds { IfErr result.1 (λ stop. stop ≢ Stop.Device) }
    ensures count { OnOk result.1 (P.failures out.new ≡ P.failures out.old) }
    ensures told { D.tells → TellsStepBy (D.failed device < D.failed result.0) file.now.offset (D.bytes device)
        (starts_in step) (told_of (P.printed out.old) searching.old.met.items (G.paired progress.old))
        (told_of (P.printed out.new) searching.new.met.items (G.paired progress.new)) result.1 }
    ensures kept { OnOk result.1 (searching.new.told.items ≡ searching.old.told.items ++ starts_in step) }
    ensures stays { looks_from searching.new.finding ≡ looks_from searching.old.finding }
    ensures heard { G.heard progress.new ≡ G.heard progress.old }
{
    make_room(step, progress);
    let met = &mut searching.met;
    let (device, told) = tell_step(alloc, device, step, met, file, out, err, progress);
    match told {
        Ok(()) => {}
        Err(stop) => return (device, Err(stop)),
    }
    if keep(&mut searching.told, step).is_err() {
        return (device, Err(Stop::Memory));
    }
    let total = device.len();
    progress.looked(looked_at(&searching.finding, total), total);
    (device, Ok(()))
}

/// Tells each volume of the device, as long as no read fails; `Device` says that one did, and that the
/// search is to go on with `search_on`.
fn search_calmly<D: Device, P: Printer, E: Write, G: Progress>(
    alloc: Global,
    device: D,
    searching: &mut Searching,
    file: &Searched<'_>,
    out: &mut P,
    err: &mut E,
    progress: &mut G,
) -> (D, Result<(), Stop>)
    requires begun { looks_from searching.old.finding ≡ 0 }
    requires untold { searching.old.told.items ≡ [] }
    requires unmet { searching.old.met.items ≡ [] }
    requires room { D.failed device + 1 < 2 ^ 64 }
    requires settled { D.tells → IsSettled D.unsettled device }
    requires printer { P.failures out.old + 1 < 2 ^ 64 }
    ensures unchanged { IsUnchanged D.tells D.size D.bytes D.unsettled device result.0 }
    ensures counts { IfErr result.1 (λ stop. StopsBy stop (D.failed device) (D.failed result.0)
        (P.failures out.old) (P.failures out.new)) }
    ensures count { OnOk result.1 ((D.failed result.0 ≡ D.failed device)
        × (P.failures out.new ≡ P.failures out.old)) }
    ensures heard { G.heard progress.new ≡ G.heard progress.old }
    ensures all { D.tells → OnOk result.1 (IsToldAll file.now.offset (D.bytes device)
        (told_of (P.printed out.old) [] (G.paired progress.old))
        (told_of (P.printed out.new) searching.new.met.items (G.paired progress.new))
        (length searching.new.told.items)) }
    ensures first { D.tells → D.failed result.0 ≡ D.failed device → IfErr result.1
        (IsToldFirst file.now.offset (D.bytes device)
        (told_of (P.printed out.old) [] (G.paired progress.old))
        (told_of (P.printed out.new) searching.new.met.items (G.paired progress.new))) }
    ensures on { D.tells → IfErr result.1 (IsToldCalmly (D.failed device < D.failed result.0) file.now.offset
        (D.bytes device) (looks_from searching.new.finding) searching.new.told.items
        (told_of (P.printed out.old) [] (G.paired progress.old))
        (told_of (P.printed out.new) searching.new.met.items (G.paired progress.new))) }
{
    let failures = device.failures();
    let mut device = device;
    loop {
        let step = match searching.finding.step(alloc, &mut device) {
            Ok(Step::End) => return (device, Ok(())),
            Ok(step) => step,
            Err(fault) => return (device, Err(Stop::from(fault))),
        };
        let (left, told) = take_step(alloc, device, step, searching, file, out, err, progress);
        device = left;
        match told {
            Ok(()) => {}
            Err(stop) => return (device, Err(stop)),
        }
        if device.failures() > failures {
            return (device, Err(Stop::Device));
        }
    }
}

/// Looks on at a device that can't be read everywhere: what the step found that wasn't told, and what it
/// passes over is said.
fn step_further<D: Device, G: Progress>(
    alloc: Global,
    device: &mut D,
    searching: &mut Searching,
    file: &Searched<'_>,
    progress: &mut G,
) -> Result<Step, FindFault>
    requires { D.failed device.old + 100 < 2 ^ 64 }
    ensures unchanged { IsUnchanged D.tells D.size D.bytes D.unsettled device.old device.new }
    ensures counts { (D.failed device.old ≤ D.failed device.new) × (D.failed device.new ≤ D.failed device.old + 99) }
    ensures kept { searching.new.told.items ≡ searching.old.told.items }
    ensures met { searching.new.met.items ≡ searching.old.met.items }
    ensures paired { G.paired progress.new ≡ G.paired progress.old }
    ensures refused { IfErr result (λ fault. fault ≡ FindFault.Memory) }
    ensures stays { OnErr result (looks_from searching.new.finding ≡ looks_from searching.old.finding) }
    ensures silent { OnErr result (G.heard progress.new ≡ G.heard progress.old) }
    ensures goes_on { IfOk result (GoesOn (D.size device.old)
        (looks_from searching.old.finding) (looks_from searching.new.finding)) }
    ensures passes { IfOk result (PassesBy D.tells file.now.offset (D.size device.old) (D.bytes device.old)
        searching.old.told.items (looks_from searching.old.finding) (looks_from searching.new.finding)
        (D.failed device.old) (D.failed device.new) (G.heard progress.old) (G.heard progress.new)) }
{
    let total = device.len();
    match searching.finding.step_on(alloc, device, &searching.told)? {
        Further::Step(step) => Ok(step),
        Further::Passed(passed) => {
            progress.pass(unread_of(passed, file.offset, total));
            Ok(Step::On)
        }
    }
}

/// Goes on with a search of a device of which a read failed: tells each volume of which a sign can be
/// read, says what it passes over, and answers why it stopped; `Device` at the end of the device.
fn search_on<D: Device, P: Printer, E: Write, G: Progress>(
    alloc: Global,
    device: D,
    searching: &mut Searching,
    file: &Searched<'_>,
    out: &mut P,
    err: &mut E,
    progress: &mut G,
) -> (D, Stop)
    requires settled { D.tells → IsSettled D.unsettled device }
    requires printer { P.failures out.old + 1 < 2 ^ 64 }
    requires told { D.tells → AreReadTo (D.bytes device) [] (looks_from searching.old.finding) searching.old.told.items }
    ensures unchanged { IsUnchanged D.tells D.size D.bytes D.unsettled device result.0 }
    ensures failing { D.failed device ≤ D.failed result.0 }
    ensures prints { PrintsBy result.1 (P.failures out.old) (P.failures out.new) }
    ensures on { GoesOnTelling D.tells file.now.offset (D.size device) (D.bytes device)
        searching.old.told.items (D.failed device) (D.failed result.0)
        (G.heard progress.old) (G.heard progress.new)
        (told_of (P.printed out.old) searching.old.met.items (G.paired progress.old))
        (told_of (P.printed out.new) searching.new.met.items (G.paired progress.new)) result.1 }
{
    let mut device = device;
    loop {
        if device.failures() > u64::MAX - 100 {
            return (device, Stop::Device);
        }
        let step = match step_further(alloc, &mut device, searching, file, progress) {
            Ok(Step::End) => return (device, Stop::Device),
            Ok(step) => step,
            Err(_) => return (device, Stop::Memory),
        };
        let (left, told) = take_step(alloc, device, step, searching, file, out, err, progress);
        device = left;
        match told {
            Ok(()) => {}
            Err(stop) => return (device, stop),
        }
    }
}

/// Tells each volume of the device; answers how many there are, or why it stopped before the end, or, by
/// `Device`, that not all could be read.
pub(crate) fn search<D: Device, P: Printer, E: Write, G: Progress>(
    alloc: Global,
    device: D,
    file: &Searched<'_>,
    out: &mut P,
    err: &mut E,
    progress: &mut G,
) -> (D, Result<u64, Stop>)
    requires room { D.failed device + 1 < 2 ^ 64 }
    requires settled { D.tells → IsSettled D.unsettled device }
    requires printer { P.failures out.old + 1 < 2 ^ 64 }
    ensures unchanged { IsUnchanged D.tells D.size D.bytes D.unsettled device result.0 }
    ensures counts { IfErr result.1 (λ stop. StopsBy stop (D.failed device) (D.failed result.0)
        (P.failures out.old) (P.failures out.new)) }
    ensures count { OnOk result.1 ((D.failed result.0 ≡ D.failed device)
        × (P.failures out.new ≡ P.failures out.old)) }
    ensures all { D.tells → IfOk result.1 (SearchesAll file.now.offset (D.bytes device)
        (P.printed out.old) (P.printed out.new) (G.paired progress.old) (G.paired progress.new)) }
    ensures first { D.tells → D.failed result.0 ≡ D.failed device → IfErr result.1
        (SearchesFirst file.now.offset (D.bytes device)
        (P.printed out.old) (P.printed out.new) (G.paired progress.old) (G.paired progress.new)) }
    ensures on { IfErr result.1 (SearchesOn D.tells file.now.offset (D.size device) (D.bytes device)
        (D.failed device) (D.failed result.0) (G.heard progress.old) (G.heard progress.new)
        (P.printed out.old) (P.printed out.new) (G.paired progress.old) (G.paired progress.new)) }
{
    let mut searching = match begin(alloc) {
        Ok(searching) => searching,
        Err(_) => return (device, Err(Stop::Memory)),
    };
    let (device, ended) = search_calmly(alloc, device, &mut searching, file, out, err, progress);
    match ended {
        Ok(()) => (device, Ok(searching.told.len() as u64)),
        Err(Stop::Device) => {
            note_fault(file.name, err);
            let (device, stop) = search_on(alloc, device, &mut searching, file, out, err, progress);
            (device, Err(stop))
        }
        Err(Stop::Memory) => (device, Err(Stop::Memory)),
        Err(Stop::Unprinted) => (device, Err(Stop::Unprinted)),
    }
}

/// How many bytes of a device of so many have been looked at.
fn looked_at(finding: &Finding, total: u64) -> u64 {
    finding.sector().saturating_mul(512).min(total)
}
