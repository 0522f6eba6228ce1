//! What words stand for: numbers, keys, values, versions, dependencies, operations.

ghost use Rattle.std.specs.Prelude.{◌<◌, IfOk};
ghost use Rattle.cops_types.specs.declared.limits.TheConstants.{NODES};

use anyhow::{Error, anyhow, bail};
use cops_types::{Dep, Deps, Format, Key, NODES, Op, PutRecord, Value, Version};
use std::alloc::Global;

/// The error for words that are not a test case.
pub fn no_row() -> Error {
    anyhow!("not a row")
}

/// The number below 2 ^ 8 of these digits.
pub fn u8_of(word: &str) -> Result<u8, Error> {
    Ok(word.parse::<u8>()?)
}

/// The number below 2 ^ 16 of these digits.
pub fn u16_of(word: &str) -> Result<u16, Error> {
    Ok(word.parse::<u16>()?)
}

/// The number of a node, of these digits.
pub fn node_of(word: &str) -> Result<u16, Error>
    ensures { IfOk result (λ node. node < NODES) }
{
    let node = u16_of(word)?;
    if node >= NODES {
        bail!("there is no such node");
    }
    Ok(node)
}

/// The number below 2 ^ 32 of these digits.
pub fn u32_of(word: &str) -> Result<u32, Error> {
    Ok(word.parse::<u32>()?)
}

/// The number below 2 ^ 64 of these digits.
pub fn u64_of(word: &str) -> Result<u64, Error> {
    Ok(word.parse::<u64>()?)
}

/// The number of these digits, as a length or an index.
pub fn usize_of(word: &str) -> Result<usize, Error> {
    Ok(u64_of(word)? as usize)
}

/// The format of this number.
pub fn format_of(word: &str) -> Result<Format, Error> {
    match Format::of_number(u16_of(word)?) {
        Some(format) => Ok(format),
        None => Err(no_row()),
    }
}

/// The key of these bytes.
pub fn key(alloc: Global, word: &str) -> Result<Key, Error> {
    Ok(Key::new(alloc, word.as_bytes())?)
}

/// The value of these bytes.
pub fn value(alloc: Global, word: &str) -> Result<Value, Error> {
    Ok(Value::new(alloc, word.as_bytes())?)
}

/// The version of a clock and a node.
pub fn version_of(clock: &str, node: &str) -> Result<Version, Error> {
    let clock = u64_of(clock)?;
    let node = u16_of(node)?;
    Ok(Version::new(clock, node)?)
}

/// The version `CLOCK.NODE`.
pub fn version(word: &str) -> Result<Version, Error> {
    match word.split_once('.') {
        Some((clock, node)) => version_of(clock, node),
        None => Err(no_row()),
    }
}

/// The version of a put, and the index of one of its dependencies: `VERSION DEP`.
pub fn mark(words: &[&str]) -> Result<(Version, u16), Error> {
    let [at, dep] = words else {
        return Err(no_row());
    };
    let version = version(at)?;
    let dep = u16_of(dep)?;
    Ok((version, dep))
}

/// The keys `KEY,KEY..`, or none where the word is `-`.
pub fn keys(alloc: Global, word: &str) -> Result<Vec<Key>, Error> {
    let mut keys = Vec::new(alloc);
    if word != "-" {
        for name in word.split(',') {
            keys.push(key(alloc, name)?)?;
        }
    }
    Ok(keys)
}

/// The pair `KEY VERSION`.
pub fn pair(alloc: Global, words: &[&str]) -> Result<Dep, Error> {
    let [name, at] = words else {
        return Err(no_row());
    };
    let version = version(at)?;
    let key = key(alloc, name)?;
    Ok(Dep { key, version })
}

/// A client and a key: `CLIENT KEY`.
pub fn client_key(alloc: Global, words: &[&str]) -> Result<(u16, Key), Error> {
    let [client, name] = words else {
        return Err(no_row());
    };
    let client = u16_of(client)?;
    let key = key(alloc, name)?;
    Ok((client, key))
}

/// The pair `KEY@VERSION`.
fn reported_pair(alloc: Global, word: &str) -> Result<Dep, Error> {
    match word.split_once('@') {
        Some((name, at)) => pair(alloc, &[name, at]),
        None => Err(no_row()),
    }
}

/// The dependencies `KEY@VERSION,KEY@VERSION..`, or none where the word is `-`.
pub fn deps(alloc: Global, word: &str) -> Result<Deps, Error> {
    let mut pairs = Vec::new(alloc);
    if word != "-" {
        for reported in word.split(',') {
            pairs.push(reported_pair(alloc, reported)?)?;
        }
    }
    Ok(Deps::new(pairs)?)
}

/// The put `KEY VALUE VERSION DEPS`.
fn valued_put(alloc: Global, words: &[&str; 4]) -> Result<PutRecord, Error> {
    let [name, bytes, at, pairs] = words;
    let version = version(at)?;
    let deps = deps(alloc, pairs)?;
    let key = key(alloc, name)?;
    let value = value(alloc, bytes)?;
    Ok(PutRecord {
        key,
        value: Some(value),
        version,
        deps,
    })
}

/// The deletion `KEY VERSION DEPS`.
fn deletion(alloc: Global, words: &[&str; 3]) -> Result<PutRecord, Error> {
    let [name, at, pairs] = words;
    let version = version(at)?;
    let deps = deps(alloc, pairs)?;
    let key = key(alloc, name)?;
    Ok(PutRecord {
        key,
        value: None,
        version,
        deps,
    })
}

/// The put `KEY VALUE VERSION DEPS`, or the deletion `KEY VERSION DEPS`.
pub fn put(alloc: Global, words: &[&str]) -> Result<PutRecord, Error> {
    match words {
        [name, bytes, at, pairs] => valued_put(alloc, &[*name, *bytes, *at, *pairs]),
        [name, at, pairs] => deletion(alloc, &[*name, *at, *pairs]),
        _ => Err(no_row()),
    }
}

/// A put `KEY VALUE VERSION`, or a get that found it.
fn valued_op(alloc: Global, is_put: bool, words: &[&str]) -> Result<Op, Error> {
    let [name, bytes, at] = words else {
        return Err(no_row());
    };
    let version = version(at)?;
    let key = key(alloc, name)?;
    let value = value(alloc, bytes)?;
    if is_put {
        Ok(Op::Put {
            key,
            value,
            version,
        })
    } else {
        Ok(Op::Got {
            key,
            value,
            version,
        })
    }
}

/// A deletion `KEY VERSION`, or a get that found it.
fn valueless_op(alloc: Global, is_deletion: bool, words: &[&str]) -> Result<Op, Error> {
    let Dep { key, version } = pair(alloc, words)?;
    if is_deletion {
        Ok(Op::Del { key, version })
    } else {
        Ok(Op::Gone { key, version })
    }
}

/// An operation of a client: `put KEY VALUE VERSION`, `del KEY VERSION`, `got KEY VALUE VERSION`, `gone KEY VERSION` or
/// `missed KEY`.
pub fn op(alloc: Global, words: &[&str]) -> Result<Op, Error> {
    match words {
        ["put", rest @ ..] => valued_op(alloc, true, rest),
        ["got", rest @ ..] => valued_op(alloc, false, rest),
        ["del", rest @ ..] => valueless_op(alloc, true, rest),
        ["gone", rest @ ..] => valueless_op(alloc, false, rest),
        ["missed", name] => Ok(Op::Missed {
            key: key(alloc, name)?,
        }),
        _ => Err(no_row()),
    }
}

/// The words from index `from` to before index `end`.
fn part<'a>(words: &'a [&'a str], from: usize, end: usize) -> &'a [&'a str] {
    words.get(from..end).unwrap_or(&[])
}

/// The parts of words that a sign separates.
pub fn parts<'a>(
    alloc: Global,
    words: &'a [&'a str],
    sign: &str,
) -> Result<Vec<&'a [&'a str]>, Error> {
    let mut parts = Vec::new(alloc);
    let mut from = 0usize;
    for (at, word) in words.iter().enumerate() {
        if *word == sign {
            parts.push(part(words, from, at))?;
            from = at.saturating_add(1);
        }
    }
    parts.push(part(words, from, words.len()))?;
    Ok(parts)
}
