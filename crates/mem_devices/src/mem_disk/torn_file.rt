// A file in memory with a record of what was done to it, and so with all its images.
ghost use Rattle.std.specs.Prelude.{◌≡◌, ℕ, ◌+◌, ◌<◌, ◌≤◌, ◌^◌, ◌||◌, [], length, take, IfOk, OnOk, OnErr, if◌then◌else◌, nat_le, slice_index};
ghost use Rattle.dev_traits.specs.{Images.{put_at, Same, Torn, Shorn}, Moments.{Goes}};
ghost use Rattle.mem_devices.specs.{MemDiskState.{start, after_write, after_cut, after_sync, is_torn, filled, filled_by}, MemDiskRecord.{replay, torn_next, call_end}};

use std::alloc::{AllocError, Global};

/// A call that was recorded, and whether it was done or failed.
#[derive(Drop)]
pub enum Call {
    Write(u64, Vec<u8>, bool),
    Cut(u64, bool),
    Sync(bool),
}

/// The file's bytes at first and now, the calls between, and the smallest and the greatest length
/// since the last sync that was done.
#[derive(Drop)]
pub struct TornFile {
    alloc: Global,
    first: Vec<u8>,
    calls: Vec<Call>,
    bytes: Vec<u8>,
    least: u64,
    most: u64,
    ghost reads: { bytes.items ≡ (replay (start first.items) calls.items).seen },
    ghost lengths: { (least ≡ (replay (start first.items) calls.items).least) × (most ≡ (replay (start first.items) calls.items).most) },
    ghost short: { (k : ℕ) → (replay (start first.items) (take k calls.items)).most < 2 ^ 63 },
}

impl TornFile {
    ghost use Rattle.mem_devices.specs.MemDiskWords.{file_state, file_moment, file_images};

    /// A file of these bytes, with no call recorded.
    pub fn new(alloc: Global, bytes: Vec<u8>) -> Result<TornFile, AllocError>
        ensures state { IfOk result (λ file. file_state file ≡ start bytes.items) }
        ensures moment { IfOk result (λ file. file_moment file ≡ 0) }
    {
        // No list in memory is as long, and no file is.
        if bytes.len() > i64::MAX as usize {
            return Err(AllocError);
        }
        let first = bytes.to_vec(alloc)?;
        let len = bytes.len() as u64;
        Ok(TornFile {
            alloc,
            first,
            calls: Vec::new(alloc),
            bytes,
            least: len,
            most: len,
        })
    }

    /// What a read gives.
    pub fn bytes(&self) -> &[u8]
        ensures { result.now ≡ (file_state self.now).seen }
    {
        &self.bytes
    }

    /// The file's length in bytes.
    pub fn len(&self) -> u64
        ensures value { result ≡ length (file_state self.now).seen }
        ensures bound { result < 2 ^ 63 }
    {
        self.bytes.len() as u64
    }

    /// Records a write, and does it where it is to be done.
    pub fn write(&mut self, at: u64, bytes: &[u8], done: bool) -> Result<(), AllocError>
        requires { at + length bytes.now < 2 ^ 63 }
        ensures state { OnOk result (file_state self.new ≡ after_write (file_state self.old) at bytes.now done) }
        ensures moment { OnOk result (file_moment self.new ≡ file_moment self.old + 1) }
        ensures same { OnErr result ((file_state self.new ≡ file_state self.old) × (file_moment self.new ≡ file_moment self.old)) }
        ensures goes { Goes file_moment file_images (Torn at (at + length bytes.now)) self.old self.new }
    {
        let copy = bytes.to_vec(self.alloc)?;
        let next = next_bytes(self.alloc, &self.bytes, at, bytes, done)?;
        self.calls.push(Call::Write(at, copy, done))?;
        self.bytes = next;
        self.most = self.most.max(at + bytes.len() as u64);
        Ok(())
    }

    /// Records a cut, and does it where it is to be done.
    pub fn cut(&mut self, len: u64, done: bool) -> Result<(), AllocError>
        ensures state { OnOk result (file_state self.new ≡ after_cut (file_state self.old) len done) }
        ensures moment { OnOk result (file_moment self.new ≡ file_moment self.old + 1) }
        ensures same { OnErr result ((file_state self.new ≡ file_state self.old) × (file_moment self.new ≡ file_moment self.old)) }
        ensures goes { Goes file_moment file_images (Shorn len) self.old self.new }
    {
        self.calls.push(Call::Cut(len, done))?;
        let kept = choose(done, len, self.bytes.len() as u64);
        self.bytes.truncate(kept as usize);
        self.least = self.least.min(len);
        Ok(())
    }

    /// Records a sync that was done or failed.
    pub fn sync(&mut self, done: bool) -> Result<(), AllocError>
        ensures state { OnOk result (file_state self.new ≡ after_sync (file_state self.old) done) }
        ensures moment { OnOk result (file_moment self.new ≡ file_moment self.old + 1) }
        ensures same { OnErr result ((file_state self.new ≡ file_state self.old) × (file_moment self.new ≡ file_moment self.old)) }
        ensures goes { Goes file_moment file_images Same self.old self.new }
    {
        self.calls.push(Call::Sync(done))?;
        let len = self.bytes.len() as u64;
        self.least = choose(done, len, self.least);
        self.most = choose(done, len, self.most);
        Ok(())
    }

    /// The image whose open bytes are all `fill`, of the greatest length or the smallest.
    pub fn image(&self, alloc: Global, fill: u8, long: bool) -> Result<Vec<u8>, AllocError>
        ensures { IfOk result
            (λ image. image.items ≡ filled (file_state self.now) fill (if long then (file_state self.now).most else (file_state self.now).least)) }
    {
        let torn = torn_ranges(alloc, &self.first, &self.calls)?;
        let len = choose(long, self.most, self.least);
        fill_open(alloc, &self.bytes, self.least, &torn, fill, len)
    }
}

fn choose(first: bool, a: u64, b: u64) -> u64
    ensures { result ≡ (if first then a else b) }
{
    if first { a } else { b }
}

// The bytes after a write over `old`, with zeros in a gap.
fn written(alloc: Global, old: &[u8], at: usize, bytes: &[u8]) -> Result<Vec<u8>, AllocError>
    requires { at + length bytes.now < 2 ^ 63 }
    ensures { IfOk result (λ v. v.items ≡ put_at at bytes.now old.now) }
{
    let kept = at.min(old.len());
    let mut next = old[..kept].to_vec(alloc)?;
    if at > kept {
        next.resize(at, 0)?;
    }
    next.extend_from_slice(bytes)?;
    let end = at + bytes.len();
    if end < old.len() {
        next.extend_from_slice(&old[end..])?;
    }
    Ok(next)
}

// The bytes after a write that is done, or is not.
fn next_bytes(
    alloc: Global,
    old: &[u8],
    at: u64,
    bytes: &[u8],
    done: bool,
) -> Result<Vec<u8>, AllocError>
    requires { at + length bytes.now < 2 ^ 63 }
    ensures { IfOk result (λ v. v.items ≡ (if done then put_at at bytes.now old.now else old.now)) }
{
    if done {
        written(alloc, old, at as usize, bytes)
    } else {
        old.to_vec(alloc)
    }
}

// The ranges written since the last sync, one call on.
fn torn_after(torn: &mut Vec<(u64, u64)>, call: &Call) -> Result<(), AllocError>
    requires { call_end call.now < 2 ^ 63 }
    ensures { OnOk result (torn.new.items ≡ torn_next torn.old.items call.now) }
{
    match call {
        Call::Write(at, bytes, _) => torn.push((*at, *at + bytes.len() as u64))?,
        Call::Cut(_, _) => {}
        Call::Sync(done) => {
            if *done {
                torn.clear();
            }
        }
    }
    Ok(())
}

// The ranges written since the last sync. `_first` is what the calls began on.
fn torn_ranges(alloc: Global, _first: &[u8], calls: &[Call]) -> Result<Vec<(u64, u64)>, AllocError>
    requires { (k : ℕ) → (replay (start _first.now) (take k calls.now)).most < 2 ^ 63 }
    ensures { IfOk result (λ v. v.items ≡ (replay (start _first.now) calls.now).torn) }
{
    let mut torn = Vec::new(alloc);
    for call in calls {
        torn_after(&mut torn, call)?;
    }
    Ok(torn)
}

fn is_in(torn: &[(u64, u64)], i: u64) -> bool
    ensures { result ≡ is_torn torn.now i }
{
    torn.iter().any(|r| r.0 <= i && i < r.1)
}

// One byte of an image.
fn byte_at(bytes: &[u8], least: u64, torn: &[(u64, u64)], fill: u8, i: u64) -> u8
    requires { least ≤ length bytes.now }
    ensures { result ≡ (if nat_le least i || is_torn torn.now i then fill else slice_index bytes.now i) }
{
    if i >= least || is_in(torn, i) {
        fill
    } else {
        bytes[i as usize]
    }
}

// The first `len` bytes of an image, where each byte that is left open is `fill`.
fn fill_open(
    alloc: Global,
    bytes: &[u8],
    least: u64,
    torn: &[(u64, u64)],
    fill: u8,
    len: u64,
) -> Result<Vec<u8>, AllocError>
    requires { least ≤ length bytes.now }
    ensures { IfOk result (λ v. v.items ≡ filled_by bytes.now least torn.now fill len) }
{
    let mut image = Vec::with_capacity(alloc, len as usize)?;
    for i in 0..len {
        image.push(byte_at(bytes, least, torn, fill, i))?;
    }
    Ok(image)
}
