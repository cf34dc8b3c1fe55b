//! Writing values, arrays and objects one by one, in either version of the store that is written.

ghost use Rattle.std.specs.Prelude.{◌≡◌, ◌==◌, ◌*◌, ◌<◌, ◌≤◌, ◌^◌, ◌++◌, Ok, Err, IfOk, IfErr, if◌then◌else◌};
ghost use Rattle.tv_base.specs.Number.{vnum};
ghost use Rattle.tv_base.specs.Writing.{Writes};
ghost use Rattle.tv_writer.specs.Error as store;
ghost use Rattle.tv_writer.specs.Error.{IsIo, IsIoOrMemory, write_error};
ghost use Rattle.tv_writer.specs.Serialized.{FailsToAnnounce, FailsToWrite, IsBegun, RefusesOrLacksMemory, WritesNext, WritesNothing, WritesToDepth, short_child};
ghost use Rattle.tv_format.specs.Short.{short, short_key, IsValue};
ghost use Rattle.tv_format.specs.Version.{entry_total};
ghost use Rattle.tv_format.specs.WriteVersion.{written_version};

use crate::deep::{has_encoding_deep, write_value_deep};
use crate::encoding::has_encoding;
use crate::value_writer::{write_child_key, write_value};
use std::alloc::{AllocFailed, Global};
use std::io;
use thiserror::Error;
use tv_base::write::write_vint;
use tv_base::{ByteSink, WriteError};
use tv_format::WriteVersion;
use tv_value::nested::{MAX_DEPTH, nests_within};
use tv_value::value::Value;

/// Why a value or a document couldn't be written.
#[derive(Clone, Copy, Debug, PartialEq, Eq, Error)]
pub enum SerializeError {
    /// The sink failed.
    #[error("the sink failed: {0}")]
    Io(io::ErrorKind),
    /// Another number of values was given than was announced.
    #[error("another number of values was given than was announced")]
    WrongCount,
    /// An object announces a number above 2^64 - 1, or a value has an array, an object, a text or bytes that are too long for it.
    #[error("there are too many entries")]
    TooMany,
    /// A value nests in more lists than the serializer writes.
    #[error("the value nests too deep")]
    TooDeep,
    /// Memory was refused, for a value that nests deeper than `MAX_DEPTH` levels.
    #[error("memory was refused")]
    Memory,
}

impl From<WriteError> for SerializeError {
    ghost from_gives = { λ failed told. told ≡ write_error failed };

    fn from(failed: WriteError) -> SerializeError {
        SerializeError::Io(failed.0)
    }
}

impl<T: Drop> From<AllocFailed<T>> for SerializeError {
    ghost use Rattle.tv_writer.specs.declared.serializers.SerializeError.TheVariants.{Memory};

    ghost from_gives = { λ _ told. told ≡ Memory };

    fn from(_error: AllocFailed<T>) -> SerializeError {
        SerializeError::Memory
    }
}

// How deep the values nest that a serializer writes.
#[derive(Clone, Copy)]
enum Depth {
    // Within this many lists. A value is walked by recursion.
    Within(u32),
    // To any depth. Past `MAX_DEPTH` lists those that are open stand in memory of this allocator.
    Any(Global),
}

// A key, if there is one, and a value.
#[tactic(auto, using(tv_base::proofs::Written::Writes_then, tv_base::proofs::Written::Writes_prefix))]
fn write_key_and_value<'a, K: ByteSink, V: Value<'a>>(
    sink: &mut K,
    key: Option<&str>,
    value: &V,
    version: WriteVersion,
) -> Result<(), WriteError>
    requires { IsValue (V.tree value.now) }
    ensures { Writes K.ByteSink sink.old sink.new result
        (short_child (written_version version) key.entry (V.tree value.now)) }
{
    write_child_key(sink, version, key)?;
    write_value(sink, value, version)
}

// A key, if there is one, and a value, where the value has an encoding.
#[inline(always)]
fn write_shallow<'a, K: ByteSink, V: Value<'a>>(
    sink: &mut K,
    key: Option<&str>,
    value: &V,
    version: WriteVersion,
) -> Result<(), SerializeError>
    ensures writes { IsValue (V.tree value.now) → store.WritesStore K.ByteSink sink.old sink.new
        result (Ok (short_child (written_version version) key.entry (V.tree value.now))) }
    ensures io { IsValue (V.tree value.now) → IfErr result IsIo }
    ensures many { ¬ IsValue (V.tree value.now)
        → WritesNothing SerializeError.TooMany sink.old sink.new result }
{
    if !has_encoding(value) {
        return Err(SerializeError::TooMany);
    }
    write_key_and_value(sink, key, value, version)?;
    Ok(())
}

// The same of a value of any depth.
fn write_deep<'a, K: ByteSink, V: Value<'a>>(
    sink: &mut K,
    key: Option<&str>,
    value: &V,
    version: WriteVersion,
    alloc: Global,
) -> Result<(), SerializeError>
    ensures writes { IsValue (V.tree value.now) → store.WritesStore K.ByteSink sink.old sink.new
        result (Ok (short_child (written_version version) key.entry (V.tree value.now))) }
    ensures errors { IsValue (V.tree value.now) → IfErr result IsIoOrMemory }
    ensures many { ¬ IsValue (V.tree value.now)
        → RefusesOrLacksMemory sink.old sink.new result }
{
    match has_encoding_deep(alloc, value) {
        Ok(true) => {}
        Ok(false) => return Err(SerializeError::TooMany),
        Err(_) => return Err(SerializeError::Memory),
    }
    write_child_key(sink, version, key)?;
    write_value_deep(sink, alloc, version, value)
}

// A key, if there is one, and a value, where the value has an encoding and nests no deeper than is asked for. Any other is refused before
// anything is written.
fn write_shortest<'a, K: ByteSink, V: Value<'a>>(
    sink: &mut K,
    key: Option<&str>,
    value: &V,
    version: WriteVersion,
    depth: Depth,
) -> Result<(), SerializeError>
    ensures { WritesToDepth depth (V.tree value.now) K.ByteSink sink.old sink.new
        result (short_child (written_version version) key.entry (V.tree value.now)) }
{
    match depth {
        Depth::Within(levels) => {
            if !nests_within(value, levels) {
                return Err(SerializeError::TooDeep);
            }
            write_shallow(sink, key, value, version)
        }
        Depth::Any(alloc) => {
            if nests_within(value, MAX_DEPTH) {
                return write_shallow(sink, key, value, version);
            }
            write_deep(sink, key, value, version, alloc)
        }
    }
}

// Whether all were given that were awaited.
fn ended(awaited: u64) -> Result<(), SerializeError>
    ensures { result ≡ (if awaited == 0 then Ok tt else Err SerializeError.WrongCount) }
{
    if awaited == 0 {
        Ok(())
    } else {
        Err(SerializeError::WrongCount)
    }
}

/// Writes values to a sink, each in its shortest encoding. A value is walked by recursion, so one that nests in more than `MAX_DEPTH` lists
/// is refused, or in more than `limit_depth` asks for. After `any_depth` none is refused for its depth.
#[derive(Drop)]
pub struct BinaryValueSerializer<'se, K: ByteSink> {
    sink: &'se mut K,
    version: WriteVersion,
    depth: Depth,
}

impl<'se, K: ByteSink> BinaryValueSerializer<'se, K> {
    /// Writes values to this sink, as version 2 has them. Nothing is written yet.
    pub fn new(sink: &'se mut K) -> BinaryValueSerializer<'se, K>
        ensures same_sink { result.sink.ghost_name ≡ sink.entry.ghost_name }
        ensures sink { result.sink.now ≡ sink.old }
        ensures version { result.version ≡ WriteVersion.V2 }
        ensures depth { result.depth ≡ Depth.Within MAX_DEPTH }
    {
        BinaryValueSerializer::with_version(sink, WriteVersion::V2)
    }

    /// Writes values to this sink, as this version has them. Nothing is written yet. (Not in tantivy.)
    pub fn with_version(sink: &'se mut K, version: WriteVersion) -> BinaryValueSerializer<'se, K>
        ensures same_sink { result.sink.ghost_name ≡ sink.entry.ghost_name }
        ensures sink { result.sink.now ≡ sink.old }
        ensures version { result.version ≡ version }
        ensures depth { result.depth ≡ Depth.Within MAX_DEPTH }
    {
        BinaryValueSerializer {
            sink,
            version,
            depth: Depth::Within(MAX_DEPTH),
        }
    }

    /// The same serializer, of values that nest within `depth` lists. Without this call that is `MAX_DEPTH`. Nothing is written. (Not in
    /// tantivy.)
    pub fn limit_depth(self, depth: u32) -> BinaryValueSerializer<'se, K>
        ensures same_sink { result.sink.ghost_name ≡ self.entry.sink.ghost_name }
        ensures sink { result.sink.now ≡ self.entry.sink.now }
        ensures version { result.version ≡ self.entry.version }
        ensures depth { result.depth ≡ Depth.Within depth }
    {
        BinaryValueSerializer {
            depth: Depth::Within(depth),
            ..self
        }
    }

    /// The same serializer, of values that nest to any depth. Of a value that nests in more than `MAX_DEPTH` lists, those that are open stand
    /// in memory of `alloc`, which is given back before the call returns. Nothing is written. (Not in tantivy.)
    pub fn any_depth(self, alloc: Global) -> BinaryValueSerializer<'se, K>
        ensures same_sink { result.sink.ghost_name ≡ self.entry.sink.ghost_name }
        ensures sink { result.sink.now ≡ self.entry.sink.now }
        ensures version { result.version ≡ self.entry.version }
        ensures depth { result.depth ≡ Depth.Any alloc }
    {
        BinaryValueSerializer {
            depth: Depth::Any(alloc),
            ..self
        }
    }

    /// Appends `value`. It takes memory only after `any_depth`, for a value that nests in more than `MAX_DEPTH` lists.
    ///
    /// Errors: `TooDeep` exactly where it nests in more lists than the serializer writes, which none does after `any_depth`; else `TooMany`
    /// where an array or an object in it has 2^63 children or more, or a text or bytes that length, and after both nothing is written; else
    /// `Io` where the sink failed. The sink then holds what it held before, and a beginning of the value; a later call appends to that.
    /// `Memory` comes only where memory was refused, in place of `TooMany`, and then nothing is written, or while a value is written that
    /// has an encoding, and then the sink holds as much as after `Io`, which may be nothing of the value.
    pub fn serialize_value<'a, V: Value<'a>>(&mut self, value: &V) -> Result<(), SerializeError>
        ensures same_sink { self.new.sink.ghost_name ≡ self.old.sink.ghost_name }
        ensures version { self.new.version ≡ self.old.version }
        ensures depth { self.new.depth ≡ self.old.depth }
        ensures writes { WritesToDepth self.old.depth (V.tree value.now) K.ByteSink
            self.old.sink.now self.new.sink.now result
            (short (written_version self.old.version) (V.tree value.now)) }
    {
        write_shortest(self.sink, None, value, self.version, self.depth)
    }
}

/// Writes an array to a sink: the number of its values, and each. The code of an array isn't written.
#[derive(Drop)]
pub struct BinaryArraySerializer<'se, K: ByteSink> {
    sink: &'se mut K,
    awaited: u64,
    version: WriteVersion,
    depth: Depth,
}

impl<'se, K: ByteSink> BinaryArraySerializer<'se, K> {
    /// Appends the number of values, all of which are then awaited, each as version 2 has it. It takes no memory.
    ///
    /// The only error is `Io`, where the sink failed. The sink then holds what it held before, and a beginning of the number. Its
    /// clause says that a failed write leaves a sink so, and not that it is this one: a contract can't say how a borrow of a sink of
    /// any type ends that the answer may keep.
    pub fn begin(
        count: u64,
        sink: &'se mut K,
    ) -> Result<BinaryArraySerializer<'se, K>, SerializeError>
        ensures same_sink { IfOk result (λ made. made.sink.ghost_name ≡ sink.entry.ghost_name) }
        ensures writes { IfOk result (λ made. store.WritesStore K.ByteSink sink.old made.sink.now result
            (Ok (vnum count))) }
        ensures begun { IfOk result
            (λ made. IsBegun count WriteVersion.V2 made.awaited made.version made.depth) }
        ensures fails { IfErr result (λ e. FailsToWrite K.ByteSink sink.old e (vnum count)) }
    {
        BinaryArraySerializer::with_version(count, sink, WriteVersion::V2)
    }

    /// The same, with each value as this version has it. (Not in tantivy.)
    pub fn with_version(
        count: u64,
        sink: &'se mut K,
        version: WriteVersion,
    ) -> Result<BinaryArraySerializer<'se, K>, SerializeError>
        ensures same_sink { IfOk result (λ made. made.sink.ghost_name ≡ sink.entry.ghost_name) }
        ensures writes { IfOk result (λ made. store.WritesStore K.ByteSink sink.old made.sink.now result
            (Ok (vnum count))) }
        ensures begun { IfOk result
            (λ made. IsBegun count version made.awaited made.version made.depth) }
        ensures fails { IfErr result (λ e. FailsToWrite K.ByteSink sink.old e (vnum count)) }
    {
        write_vint(sink, count)?;
        Ok(BinaryArraySerializer {
            sink,
            awaited: count,
            version,
            depth: Depth::Within(MAX_DEPTH),
        })
    }

    /// The same serializer, of values that nest within `depth` lists. Without this call that is `MAX_DEPTH`. Nothing is written. (Not in
    /// tantivy.)
    pub fn limit_depth(self, depth: u32) -> BinaryArraySerializer<'se, K>
        ensures same_sink { result.sink.ghost_name ≡ self.entry.sink.ghost_name }
        ensures sink { result.sink.now ≡ self.entry.sink.now }
        ensures awaited { result.awaited ≡ self.entry.awaited }
        ensures version { result.version ≡ self.entry.version }
        ensures depth { result.depth ≡ Depth.Within depth }
    {
        BinaryArraySerializer {
            depth: Depth::Within(depth),
            ..self
        }
    }

    /// The same serializer, of values that nest to any depth. Of a value that nests in more than `MAX_DEPTH` lists, those that are open stand
    /// in memory of `alloc`, which is given back before the call returns. Nothing is written. (Not in tantivy.)
    pub fn any_depth(self, alloc: Global) -> BinaryArraySerializer<'se, K>
        ensures same_sink { result.sink.ghost_name ≡ self.entry.sink.ghost_name }
        ensures sink { result.sink.now ≡ self.entry.sink.now }
        ensures awaited { result.awaited ≡ self.entry.awaited }
        ensures version { result.version ≡ self.entry.version }
        ensures depth { result.depth ≡ Depth.Any alloc }
    {
        BinaryArraySerializer {
            depth: Depth::Any(alloc),
            ..self
        }
    }

    /// Appends `value`, of which one less is then awaited. It takes memory where `BinaryValueSerializer` does.
    ///
    /// Errors: `WrongCount` where none is awaited, and nothing is written; else those of `BinaryValueSerializer`. After each as
    /// many are awaited as before.
    pub fn serialize_value<'a, V: Value<'a>>(&mut self, value: &V) -> Result<(), SerializeError>
        ensures same_sink { self.new.sink.ghost_name ≡ self.old.sink.ghost_name }
        ensures writes { WritesNext self.old.awaited self.new.awaited self.old.depth
            (V.tree value.now) K.ByteSink self.old.sink.now self.new.sink.now result
            (short (written_version self.old.version) (V.tree value.now)) }
        ensures version { self.new.version ≡ self.old.version }
        ensures depth { self.new.depth ≡ self.old.depth }
    {
        let Some(others) = self.awaited.checked_sub(1) else {
            return Err(SerializeError::WrongCount);
        };
        write_shortest(self.sink, None, value, self.version, self.depth)?;
        self.awaited = others;
        Ok(())
    }

    /// Ends the array. Nothing is written. The only error is `WrongCount`, where values are still awaited.
    pub fn end(self) -> Result<(), SerializeError>
        ensures sink { self.exit.0.now ≡ self.entry.sink.now }
        ensures count { result
            ≡ (if self.entry.awaited == 0 then Ok tt else Err SerializeError.WrongCount) }
    {
        ended(self.awaited)
    }
}

/// Writes an object to a sink: the number of its entries, in version 2 twice that, and each key and value. The code of an object
/// isn't written.
#[derive(Drop)]
pub struct BinaryObjectSerializer<'se, K: ByteSink> {
    sink: &'se mut K,
    awaited: u64,
    version: WriteVersion,
    depth: Depth,
}

impl<'se, K: ByteSink> BinaryObjectSerializer<'se, K> {
    /// Appends twice the number of entries, all of which are then awaited, each as version 2 has it. It takes no memory.
    ///
    /// Errors: `TooMany` where twice the number is above 2^64 - 1, and nothing is written; else `Io` where the sink failed. The
    /// sink then holds what it held before, and a beginning of the number. Its clause says that a failed write leaves a sink so,
    /// and not that it is this one: a contract can't say how a borrow of a sink of any type ends that the answer may keep.
    pub fn begin(
        count: u64,
        sink: &'se mut K,
    ) -> Result<BinaryObjectSerializer<'se, K>, SerializeError>
        ensures same_sink { IfOk result (λ made. made.sink.ghost_name ≡ sink.entry.ghost_name) }
        ensures writes { IfOk result (λ made. store.WritesStore K.ByteSink sink.old made.sink.now result
            (Ok (vnum (2 * count)))) }
        ensures begun { IfOk result
            (λ made. IsBegun count WriteVersion.V2 made.awaited made.version made.depth) }
        ensures fails { FailsToAnnounce K.ByteSink sink.old (2 * count) result }
    {
        BinaryObjectSerializer::with_version(count, sink, WriteVersion::V2)
    }

    /// Appends the number that an object of this many entries announces in this version, all of which are then awaited, each as this
    /// version has it. It takes no memory. (Not in tantivy.)
    ///
    /// Errors: `TooMany` where the announced number is above 2^64 - 1, which it never is in version 3, and nothing is written; else
    /// `Io` where the sink failed. The sink then holds what it held before, and a beginning of the number, as after `begin`.
    pub fn with_version(
        count: u64,
        sink: &'se mut K,
        version: WriteVersion,
    ) -> Result<BinaryObjectSerializer<'se, K>, SerializeError>
        ensures same_sink { IfOk result (λ made. made.sink.ghost_name ≡ sink.entry.ghost_name) }
        ensures writes { IfOk result (λ made. store.WritesStore K.ByteSink sink.old made.sink.now result
            (Ok (vnum (entry_total (written_version version) count)))) }
        ensures begun { IfOk result
            (λ made. IsBegun count version made.awaited made.version made.depth) }
        ensures fails { FailsToAnnounce K.ByteSink sink.old
            (entry_total (written_version version) count) result }
    {
        let Some(total) = version.object_total(count) else {
            return Err(SerializeError::TooMany);
        };
        write_vint(sink, total)?;
        Ok(BinaryObjectSerializer {
            sink,
            awaited: count,
            version,
            depth: Depth::Within(MAX_DEPTH),
        })
    }

    /// The same serializer, of values that nest within `depth` lists. Without this call that is `MAX_DEPTH`. Nothing is written. (Not in
    /// tantivy.)
    pub fn limit_depth(self, depth: u32) -> BinaryObjectSerializer<'se, K>
        ensures same_sink { result.sink.ghost_name ≡ self.entry.sink.ghost_name }
        ensures sink { result.sink.now ≡ self.entry.sink.now }
        ensures awaited { result.awaited ≡ self.entry.awaited }
        ensures version { result.version ≡ self.entry.version }
        ensures depth { result.depth ≡ Depth.Within depth }
    {
        BinaryObjectSerializer {
            depth: Depth::Within(depth),
            ..self
        }
    }

    /// The same serializer, of values that nest to any depth. Of a value that nests in more than `MAX_DEPTH` lists, those that are open stand
    /// in memory of `alloc`, which is given back before the call returns. Nothing is written. (Not in tantivy.)
    pub fn any_depth(self, alloc: Global) -> BinaryObjectSerializer<'se, K>
        ensures same_sink { result.sink.ghost_name ≡ self.entry.sink.ghost_name }
        ensures sink { result.sink.now ≡ self.entry.sink.now }
        ensures awaited { result.awaited ≡ self.entry.awaited }
        ensures version { result.version ≡ self.entry.version }
        ensures depth { result.depth ≡ Depth.Any alloc }
    {
        BinaryObjectSerializer {
            depth: Depth::Any(alloc),
            ..self
        }
    }

    /// Appends `key` and `value`, of which one less is then awaited. It takes memory where `BinaryValueSerializer` does.
    ///
    /// Errors: `WrongCount` where none is awaited, and nothing is written; else those of `BinaryValueSerializer`, where the sink
    /// may hold a beginning of the key and the value. After each as many are awaited as before.
    pub fn serialize_entry<'a, V: Value<'a>>(
        &mut self,
        key: &str,
        value: &V,
    ) -> Result<(), SerializeError>
        ensures same_sink { self.new.sink.ghost_name ≡ self.old.sink.ghost_name }
        ensures writes { let version = written_version self.old.version in
            WritesNext self.old.awaited self.new.awaited self.old.depth (V.tree value.now) K.ByteSink
            self.old.sink.now self.new.sink.now result
            (short_key version key.now ++ short version (V.tree value.now)) }
        ensures version { self.new.version ≡ self.old.version }
        ensures depth { self.new.depth ≡ self.old.depth }
    {
        let Some(others) = self.awaited.checked_sub(1) else {
            return Err(SerializeError::WrongCount);
        };
        write_shortest(self.sink, Some(key), value, self.version, self.depth)?;
        self.awaited = others;
        Ok(())
    }

    /// Ends the object. Nothing is written. The only error is `WrongCount`, where entries are still awaited.
    pub fn end(self) -> Result<(), SerializeError>
        ensures sink { self.exit.0.now ≡ self.entry.sink.now }
        ensures count { result
            ≡ (if self.entry.awaited == 0 then Ok tt else Err SerializeError.WrongCount) }
    {
        ended(self.awaited)
    }
}
