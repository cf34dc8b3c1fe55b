//! A buffer of bytes to which short parts are appended.

ghost use Rattle.std.specs.Prelude.{◌≡◌, ◌+◌, ◌≤◌, ◌<◌, ◌^◌, ◌∷◌, ◌++◌, [], length, take, IfOk, OnOk, OnErr, IsTrue, ◌↔◌, vec_capacity, vec_len};
ghost use Rattle.tv_base.specs.Buffer.{Extends, Grows, Puts, capacity, grown};

use crate::fixed_copy::{copy_first, copy_part};
use std::alloc::{AllocError, Global};
use std::marker::Model;
use std::{fmt, mem};

// So much memory is asked for at first: enough for the values of a short document.
const FIRST_ROOM: usize = 512;

// At most this many bytes beyond what is needed are made ready at once.
const MOST_AHEAD: usize = 16384;

/// A buffer of bytes. (Not in tantivy.)
///
/// The bytes are the first `len` of those in memory. What lies after them is set ahead, so that a short part is stored by one test of room and
/// two copies of a fixed size, and `reserve` serves for several parts that are then stored by the `put` calls with no test.
///
/// Memory grows to what is needed, or to twice what there is if that is greater, and to 512 bytes at least. After an error the bytes and their
/// memory are as they were.
pub struct ByteBuffer {
    bytes: Vec<u8>,
    len: usize,
}

// By hand, so that a buffer is dropped by one call.
impl Drop for ByteBuffer {
    fn drop(self) {
        let ByteBuffer { bytes: _, len: _ } = self;
    }
}

/// The bytes, as a list of numbers.
impl fmt::Debug for ByteBuffer {
    fn fmt<W: fmt::Write>(&self, f: &mut fmt::Formatter<W>) -> fmt::Result {
        f.debug_list().entries(self.as_slice().iter()).finish()
    }
}

impl Model for ByteBuffer {
    ghost use Rattle.std.specs.Prelude.{◌-◌, ◌≤◌, length, take, vec_capacity};
    ghost use Rattle.tv_base.specs.Buffer.{Buffer, buffer_code};

    ghost Value = { Buffer };

    ghost coded = { buffer_code };

    ghost view = { λ b. record { items = take b.len b.bytes.items; ready = length b.bytes.items - b.len; spare = vec_capacity b.bytes - b.len } };

    ghost invariant = { λ b. b.len ≤ length b.bytes.items };
}

impl ByteBuffer {
    /// A buffer without bytes. It takes no memory.
    pub fn new(alloc: Global) -> ByteBuffer
        ensures items { result.items ≡ [] }
        ensures spare { result.spare ≡ 0 }
    {
        ByteBuffer {
            bytes: Vec::new(alloc),
            len: 0,
        }
    }

    /// A buffer without bytes that has memory for `capacity` of them. The only error is that memory was refused.
    pub fn with_capacity(alloc: Global, capacity: usize) -> Result<ByteBuffer, AllocError>
        ensures items { IfOk result (λ made. made.items ≡ []) }
        ensures spare { IfOk result (λ made. made.spare ≡ capacity) }
    {
        let bytes = Vec::with_capacity(alloc, capacity)?;
        Ok(ByteBuffer { bytes, len: 0 })
    }

    /// A buffer of the bytes in `bytes`, with their memory.
    pub fn from_vec(bytes: Vec<u8>) -> ByteBuffer
        ensures items { result.items ≡ bytes.items }
        ensures capacity { capacity result ≡ vec_capacity bytes }
    {
        let len = bytes.len();
        ByteBuffer { bytes, len }
    }

    /// The bytes, with their memory.
    pub fn into_vec(self) -> Vec<u8>
        ensures items { result.items ≡ self.items }
        ensures capacity { vec_capacity result ≡ capacity self }
    {
        let ByteBuffer { mut bytes, len } = self;
        bytes.truncate(len);
        bytes
    }

    /// What gives the buffer its memory.
    pub fn allocator(&self) -> Global {
        *self.bytes.allocator()
    }

    /// How many bytes there are.
    #[inline(always)]
    pub fn len(&self) -> usize
        ensures len { result ≡ length self.now.items }
        ensures small { result < 2 ^ 63 }
    {
        self.len
    }

    /// Whether there is no byte.
    #[inline(always)]
    pub fn is_empty(&self) -> bool
        ensures { IsTrue result ↔ (self.now.items ≡ []) }
    {
        self.len == 0
    }

    /// For how many bytes there is memory, with those that there are.
    pub fn capacity(&self) -> usize
        ensures { result ≡ capacity self.now }
    {
        self.bytes.capacity()
    }

    /// The bytes.
    #[inline(always)]
    pub fn as_slice(&self) -> &[u8]
        ensures { result.now ≡ self.now.items }
    {
        &self.bytes.as_slice()[..self.len]
    }

    /// Keeps the first `len` bytes, or all where there are no more. Their memory stays, and no byte of it is written.
    #[inline(always)]
    pub fn truncate(&mut self, len: usize)
        ensures items { self.new.items ≡ take len self.old.items }
        ensures ready { length self.new.items + self.new.ready
            ≡ length self.old.items + self.old.ready }
        ensures capacity { capacity self.new ≡ capacity self.old }
    {
        if len < self.len {
            self.len = len;
        }
    }

    /// Takes all bytes off. Their memory stays.
    #[inline(always)]
    pub fn clear(&mut self)
        ensures items { self.new.items ≡ [] }
        ensures capacity { capacity self.new ≡ capacity self.old }
    {
        self.len = 0;
    }

    /// Gives memory back that the bytes don't need, as far as the allocator takes it.
    pub fn shrink_to_fit(&mut self)
        ensures items { self.new.items ≡ self.old.items }
        ensures capacity { capacity self.new ≤ capacity self.old }
        ensures frees { self.old.items ≡ [] → capacity self.new ≡ 0 }
    {
        self.bytes.truncate(self.len);
        self.bytes.shrink_to_fit();
    }

    /// A copy. The only error is that memory was refused.
    pub fn try_clone(&self) -> Result<ByteBuffer, AllocError>
        ensures { IfOk result (λ copy. copy.items ≡ self.now.items) }
    {
        let bytes = Vec::from_slice(self.allocator(), self.as_slice())?;
        Ok(ByteBuffer::from_vec(bytes))
    }

    /// Makes room for `additional` bytes, which may then be put with no test. The only error is that memory was refused.
    #[inline(always)]
    pub fn reserve(&mut self, additional: usize) -> Result<(), AllocError>
        ensures items { self.new.items ≡ self.old.items }
        ensures ready { OnOk result (additional ≤ self.new.ready) }
        ensures grows { Grows result self.old self.new (length self.old.items + additional) }
    {
        if additional <= self.bytes.len() - self.len {
            return Ok(());
        }
        self.grow(additional)
    }

    // Makes bytes ready, in more memory where there is too little.
    #[cold]
    #[inline(never)]
    fn grow(&mut self, additional: usize) -> Result<(), AllocError>
        requires { self.old.ready < additional }
        ensures items { self.new.items ≡ self.old.items }
        ensures ready { OnOk result (additional ≤ self.new.ready) }
        ensures grows { Grows result self.old self.new (length self.old.items + additional) }
    {
        let need = self.len.checked_add(additional).ok_or(AllocError)?;
        make_room(&mut self.bytes, need)?;
        fill(&mut self.bytes, need);
        Ok(())
    }

    /// Appends `bytes`. The only error is that memory was refused.
    #[inline(always)]
    pub fn extend_from_slice(&mut self, bytes: &[u8]) -> Result<(), AllocError>
        ensures { Extends result self.old self.new bytes.now }
    {
        self.reserve(bytes.len())?;
        self.put_slice(bytes);
        Ok(())
    }

    /// Appends `head` and then `content`, with one test of room. The only error is that memory was refused.
    #[inline(never)]
    pub fn extend_from_head(&mut self, head: u8, content: &[u8]) -> Result<(), AllocError>
        ensures { Extends result self.old self.new (head ∷ content.now) }
    {
        let len = content.len().checked_add(1).ok_or(AllocError)?;
        self.reserve(len)?;
        self.put_byte(head);
        self.put_slice(content);
        Ok(())
    }

    /// Appends the `N` bytes of `chunk`, by one copy of that size. `N` is a power of two, at most 64: with another the program is not compiled. The
    /// only error is that memory was refused.
    #[inline(always)]
    pub fn extend_from_chunk<const N: usize>(&mut self, chunk: &[u8; N]) -> Result<(), AllocError>
        ensures { Extends result self.old self.new chunk.now }
    {
        self.reserve(N)?;
        self.len = copy_first::<N>(self.bytes.as_mut_slice(), self.len, chunk);
        Ok(())
    }

    /// Appends `byte`. The only error is that memory was refused.
    #[inline(always)]
    pub fn push(&mut self, byte: u8) -> Result<(), AllocError>
        ensures { Extends result self.old self.new (byte ∷ []) }
    {
        self.reserve(1)?;
        self.put_byte(byte);
        Ok(())
    }

    /// Appends `byte`, where a byte is ready.
    #[inline(always)]
    pub fn put_byte(&mut self, byte: u8)
        requires { 1 ≤ self.old.ready }
        ensures { Puts self.old self.new (byte ∷ []) }
    {
        self.bytes[self.len] = byte;
        self.len += 1;
    }

    /// Appends `bytes`, where bytes for them are ready.
    #[inline(always)]
    pub fn put_slice(&mut self, bytes: &[u8])
        requires { length bytes.now ≤ self.old.ready }
        ensures { Puts self.old self.new bytes.now }
    {
        self.len = copy_part(self.bytes.as_mut_slice(), self.len, bytes);
    }
}

// Makes memory for `need` bytes in all, where there is less.
fn make_room(bytes: &mut Vec<u8>, need: usize) -> Result<(), AllocError>
    ensures items { bytes.new.items ≡ bytes.old.items }
    ensures ok { OnOk result (vec_capacity bytes.new ≡ grown (vec_capacity bytes.old) need) }
    ensures err { OnErr result ((vec_capacity bytes.new ≡ vec_capacity bytes.old) × (vec_capacity bytes.old < need)) }
{
    let capacity = bytes.capacity();
    if need <= capacity {
        return Ok(());
    }
    let twice = capacity.checked_mul(2).ok_or(AllocError)?;
    let wanted = need.max(twice).max(FIRST_ROOM);
    bytes.reserve_exact(wanted - bytes.len())
}

// Sets bytes after those that there are, so that there are `need` at least, and some more where there is memory for them.
fn fill(bytes: &mut Vec<u8>, need: usize)
    requires { need ≤ vec_capacity bytes.old }
    ensures before { take (vec_len bytes.old) bytes.new.items ≡ bytes.old.items }
    ensures len { need ≤ vec_len bytes.new }
    ensures capacity { vec_capacity bytes.new ≡ vec_capacity bytes.old }
{
    let most = need.saturating_add(MOST_AHEAD).min(bytes.capacity());
    // (taken out, so that the loop is one call that sets memory)
    let empty = Vec::new(*bytes.allocator());
    let mut filled = mem::replace(bytes, empty);
    while filled.len() < most {
        filled.push_reserved(0);
    }
    *bytes = filled;
}
