// Ticks of a link: two masters and six slots for devices on one line. All parties tick in one function, so that no state is copied from tick to tick: docs/BENCHMARKS.md, "The link".
#![tactic(auto, using(base::proofs::Choices::choices))]

ghost use Rattle.std.specs.Prelude.{◌≡◌, length};
ghost use Rattle.link_ticks.specs.Ticks.{master_host_told, device_host_told, master_call_in, device_call_in, goes_on, link_with, calls_with, CodeIs, TicksAre};
ghost use Rattle.link_ticks.specs.Ticks.{answer_kept, master_told_kept, device_told_kept, master_did_by, device_did_by, master_nothing, device_nothing};

use line::Heard;
use link_parties::{
    Calls, DeviceCallWithPart, DeviceDid, Link, MasterCallWithPart, MasterDid, Ticked, Way,
};
use turns::{CallResult, Device, DeviceTold, Master, MasterTold, Sent};

// The call in the tick with this number: only the first has calls.
fn master_call(call: MasterCallWithPart, t: u16) -> MasterCallWithPart
    ensures { result ≡ master_call_in t call }
{
    if t == 0 {
        call
    } else {
        link_parties::no_master_call()
    }
}

fn device_call(call: DeviceCallWithPart, t: u16) -> DeviceCallWithPart
    ensures { result ≡ device_call_in t call }
{
    if t == 0 {
        call
    } else {
        link_parties::no_device_call()
    }
}

// Whether a host is told something, this included.
fn master_tells(told: MasterTold, others: bool) -> bool
    ensures { result ≡ master_host_told told others }
{
    others || !matches!(told, MasterTold::Nothing)
}

fn device_tells(told: DeviceTold, others: bool) -> bool
    ensures { result ≡ device_host_told told others }
{
    others || !matches!(told, DeviceTold::Nothing)
}

// What became of a call, where this is answered in a further tick.
fn answer_kept(old: CallResult, res: CallResult) -> CallResult
    ensures { result ≡ answer_kept old res }
{
    match res {
        CallResult::Nothing => old,
        _ => res,
    }
}

fn master_told_kept(old: MasterTold, told: MasterTold) -> MasterTold
    ensures { result ≡ master_told_kept old told }
{
    match told {
        MasterTold::Nothing => old,
        _ => told,
    }
}

fn device_told_kept(old: DeviceTold, told: DeviceTold) -> DeviceTold
    ensures { result ≡ device_told_kept old told }
{
    match told {
        DeviceTold::Nothing => old,
        _ => told,
    }
}

// What a host was told and answered, after a further tick.
fn master_did(old: MasterDid, told: MasterTold, res: CallResult) -> MasterDid
    ensures { result ≡ master_did_by old told res }
{
    MasterDid {
        told: master_told_kept(old.told, told),
        result: answer_kept(old.result, res),
    }
}

fn device_did(old: DeviceDid, told: DeviceTold, res: CallResult) -> DeviceDid
    ensures { result ≡ device_did_by old told res }
{
    DeviceDid {
        told: device_told_kept(old.told, told),
        result: answer_kept(old.result, res),
    }
}

fn master_nothing() -> MasterDid
    ensures { result ≡ master_nothing }
{
    MasterDid {
        told: MasterTold::Nothing,
        result: CallResult::Nothing,
    }
}

fn device_nothing() -> DeviceDid
    ensures { result ≡ device_nothing }
{
    DeviceDid {
        told: DeviceTold::Nothing,
        result: CallResult::Nothing,
    }
}

// What is sent, as a number, and that it is a byte.
fn code(sent: Sent) -> u16
    ensures { CodeIs sent result }
{
    party::sent_number(sent)
}

// Whether there is a tick with this number.
fn goes_on(t: u16, most: u16, told: bool) -> bool
    ensures { result ≡ goes_on t most told }
{
    !told && t < most && t < 64
}

// There is a row for each party: the arrays' types say so, and the promise below needs it in words.
fn rows_each(frames: &[[u8; 284]], bytes: &[[u8; 255]], contents: &[[u8; 255]], sent: &[[u16; 8]])
    requires { (length frames.now ≡ 8) × (length bytes.now ≡ 8) × (length contents.now ≡ 6) × (length sent.now ≡ 64) }
    ensures { (length frames.now ≡ 8) × (length bytes.now ≡ 8) × (length contents.now ≡ 6) × (length sent.now ≡ 64) }
{}

// Each part is a parameter of its own, and the counters fall by hand: the proof of these loops is written with both.
// The ticks, with link and calls given part by part. In each the devices tick from the last to the first, then the masters, and the line joins what they send in that order. `reader` is the line's, and ms_follow and ds_follow say whose reader is known to equal it: whoever heard in the last tick as it did.
fn ticks_of(
    limit: u8,
    masters: [Master; 2],
    devices: [Option<Device>; 6],
    heard: Heard,
    requests: [MasterCallWithPart; 2],
    calls: [DeviceCallWithPart; 6],
    put: &[u8],
    most: u16,
    frames: &mut [[u8; 284]; 8],
    bytes: &mut [[u8; 255]; 8],
    contents: &mut [[u8; 255]; 6],
    sent: &mut [[u16; 8]; 64],
) -> Ticked
    ensures { TicksAre limit (link_with masters devices heard) (calls_with requests calls) put.now most frames bytes contents sent result }
{
    rows_each(frames, bytes, contents, sent);
    let mut ms = masters;
    let mut ds = devices;
    let mut line = heard;
    let nothing = master_nothing();
    let none = device_nothing();
    let mut ms_did = [nothing; 2];
    let mut ds_did = [none; 6];
    let mut told = false;
    let primary = ms[0];
    let mut reader = primary.receiver;
    let mut ms_follow = [false; 2];
    let mut ds_follow = [false; 6];
    let mut t: u16 = 0;
    while goes_on(t, most, told) {
        let mut row: [u16; 8] = [0; 8];
        let mut next = Heard::Silence;
        let step = link_parties::line_step(reader, line);
        let stepped = step.reader;
        let quiet = step.quiet;
        let mut n = 6;
        while 0 < n {
            let i = n - 1;
            n = i;
            if let Some(d) = &ds[i] {
                let call = device_call(calls[i], t);
                let way = link_parties::device_way(*d, line, call, ds_follow[i], quiet, reader);
                match way {
                    Way::Counts => {
                        ds[i] = Some(link_parties::counted_device(*d));
                        ds_follow[i] = false;
                    }
                    Way::Hears => {
                        link_parties::keep(d.receiver, line, &mut bytes[i + 2]);
                        ds[i] = Some(link_parties::heard_device(*d, stepped));
                        ds_follow[i] = true;
                    }
                    Way::Acts => {
                        let did = ds_did[i];
                        let s = link_parties::device_tick(
                            limit,
                            *d,
                            line,
                            call,
                            put,
                            &mut frames[i + 2],
                            &mut bytes[i + 2],
                            &mut contents[i],
                        );
                        let c = s.sent;
                        let x = s.told;
                        let a = s.result;
                        ds[i] = Some(s.device);
                        ds_follow[i] = false;
                        row[i + 2] = code(c);
                        ds_did[i] = device_did(did, x, a);
                        told = device_tells(x, told);
                        next = link_parties::join(c, next);
                    }
                }
            }
        }
        let mut k = 2;
        while 0 < k {
            let i = k - 1;
            k = i;
            let m = ms[i];
            let call = master_call(requests[i], t);
            let way = link_parties::master_way(m, line, call, ms_follow[i], quiet, reader);
            match way {
                Way::Counts => {
                    let same = ms[i];
                    ms[i] = link_parties::counted_master(same);
                    ms_follow[i] = false;
                }
                Way::Hears => {
                    let same = ms[i];
                    let own = same.receiver;
                    link_parties::keep(own, line, &mut bytes[i]);
                    ms[i] = link_parties::heard_master(same, stepped);
                    ms_follow[i] = true;
                }
                Way::Acts => {
                    let same = ms[i];
                    let did = ms_did[i];
                    let s = link_parties::master_tick(
                        limit,
                        same,
                        line,
                        call,
                        put,
                        &mut frames[i],
                        &mut bytes[i],
                    );
                    let e = s.master;
                    let c = s.sent;
                    let x = s.told;
                    let a = s.result;
                    ms[i] = e;
                    ms_follow[i] = false;
                    row[i] = code(c);
                    ms_did[i] = master_did(did, x, a);
                    told = master_tells(x, told);
                    next = link_parties::join(c, next);
                }
            }
        }
        let at = t as usize;
        sent[at] = row;
        line = next;
        reader = stepped;
        t += 1;
    }
    let link = Link {
        masters: ms,
        devices: ds,
        line: line,
    };
    Ticked {
        link: link,
        count: t,
        masters: ms_did,
        devices: ds_did,
    }
}

// The most that is taken: so many ticks, and so many bytes of data in a host's call, the link's data limit.
#[derive(Clone, Copy)]
pub struct Most {
    pub ticks: u16,
    pub data: u8,
}

// The tick with these calls, and more without a call, so many in all and at most 64; they end after a tick in which a host is told something. Row t of `sent` is what each party sent in tick t: the character with 256 added, or 0 for none. Each call names its data in what is put. The link does not hold its data limit: whoever started it with `link_start::start_limited` gives that limit in every call, and whoever started it with `link_start::start` gives 255.
pub fn ticks(
    most: Most,
    link: Link,
    calls: Calls,
    put: &[u8],
    frames: &mut [[u8; 284]; 8],
    bytes: &mut [[u8; 255]; 8],
    contents: &mut [[u8; 255]; 6],
    sent: &mut [[u16; 8]; 64],
) -> Ticked
    ensures { TicksAre most.data link calls put.now most.ticks frames bytes contents sent result }
{
    ticks_of(
        most.data,
        link.masters,
        link.devices,
        link.line,
        calls.masters,
        calls.devices,
        put,
        most.ticks,
        frames,
        bytes,
        contents,
        sent,
    )
}
