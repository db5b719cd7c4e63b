//! The log of a store that a key is in, to be read alone.
ghost use Rattle.std.specs.Prelude.{◌≡◌, ◌⊎◌, IfOk, IfErr};
ghost use Rattle.commands.specs.Faults.{IsNoManifest, IsUnreadStore};
ghost use Rattle.commands.specs.Replies.{log_name};
ghost use Rattle.units.specs.Keys.{shard_of};

use host_files::manifest_text;
use std::alloc::Global;
use std::str;
use system::Files;
use units::{Book, Fault, Key, Reason, Setup, Splits, Stride};

const NO_MANIFEST: Fault = Fault::BadRequest(Reason::Settings);

// How long a manifest may be: 16 shards take no more than 6,000 bytes.
const MOST_MANIFEST: u64 = 1 << 16;

/// Opens the log of the shard to which a key belongs, of the store in a folder, to be read alone. Gives also what tells that shard whose
/// keys are whose. If the folder, its manifest (`store.toml`) or the log is not there, that is `Device`; a manifest that is none
/// is refused as `settings`. Nothing is made or locked.
pub fn open_of_key<F: Files>(
    alloc: Global,
    files: &F,
    folder: &str,
    key: &Key,
) -> Result<(Setup, F::Log), Fault>
    ensures owned { IfOk result (λ opened. shard_of opened.0.splits key.now ≡ opened.0.shard) }
    ensures named { IfOk result (λ opened.
        F.is_named files.now (log_name folder.now opened.0.shard) opened.1) }
    ensures refused { IfErr result IsUnreadStore }
{
    let setup = setup_of(splits_of(alloc, files, folder)?, key)?;
    match open_log(alloc, files, folder, &setup) {
        Ok(log) => Ok((setup, log)),
        Err(fault) => {
            drop(setup);
            Err(fault)
        }
    }
}

/// How the keys of the store in a folder are parted, by its manifest, which is read alone.
pub fn splits_of<F: Files>(alloc: Global, files: &F, folder: &str) -> Result<Splits, Fault>
    ensures { IfErr result IsUnreadStore }
{
    let manifest = format!(in alloc; "{folder}/store.toml")?;
    let text = files.read(alloc, &manifest, MOST_MANIFEST)?;
    splits_in(alloc, &text)
}

// What the shard of a key is told by these splits.
fn setup_of(splits: Splits, key: &Key) -> Result<Setup, Fault>
    ensures owned { IfOk result (λ setup. shard_of setup.splits key.now ≡ setup.shard) }
    ensures refused { IfErr result IsNoManifest }
{
    let Some(stride) = Stride::new(0) else {
        drop(splits);
        return Err(NO_MANIFEST);
    };
    Ok(Setup {
        shard: splits.shard_of(key),
        splits,
        stride,
        book: Book::Off,
    })
}

fn open_log<F: Files>(
    alloc: Global,
    files: &F,
    folder: &str,
    setup: &Setup,
) -> Result<F::Log, Fault>
    ensures named { IfOk result (λ log.
        F.is_named files.now (log_name folder.now setup.now.shard) log) }
    ensures refused { IfErr result IsUnreadStore }
{
    let shard = setup.shard;
    let path = format!(in alloc; "{folder}/shard-{shard}.log")?;
    files.open(alloc, &path)
}

// The splits that a manifest tells of, where its bytes are those of the manifest of these splits.
fn splits_in(alloc: Global, manifest: &[u8]) -> Result<Splits, Fault>
    ensures { IfErr result IsNoManifest }
{
    let Ok(text) = str::from_utf8(manifest) else {
        return Err(NO_MANIFEST);
    };
    let name = name_in(text)?;
    let keys = keys_in(alloc, text)?;
    let splits = match Splits::new(alloc, &keys) {
        Ok(splits) => splits,
        Err(Fault::Memory) => return Err(Fault::Memory),
        Err(_) => return Err(NO_MANIFEST),
    };
    let is_right = match manifest_text(alloc, &splits, name) {
        Ok(right) => right.as_str() == text,
        Err(fault) => {
            drop(splits);
            return Err(fault);
        }
    };
    if is_right {
        Ok(splits)
    } else {
        drop(splits);
        Err(NO_MANIFEST)
    }
}

// The name of the store.
fn name_in(text: &str) -> Result<u64, Fault>
    ensures { IfErr result IsNoManifest }
{
    let Some((_, name)) = text.split_once("name = \"") else {
        return Err(NO_MANIFEST);
    };
    let Some((digits, _)) = name.split_once('"') else {
        return Err(NO_MANIFEST);
    };
    match u64::from_str_radix(digits, 16) {
        Ok(name) => Ok(name),
        Err(_) => Err(NO_MANIFEST),
    }
}

// The keys in quotes before the first bracket that closes.
fn keys_in(alloc: Global, text: &str) -> Result<Vec<Key>, Fault>
    ensures { IfErr result IsNoManifest }
{
    let Some((list, _)) = text.split_once(']') else {
        return Err(NO_MANIFEST);
    };
    let mut keys = Vec::new(alloc);
    for (place, word) in list.split('"').enumerate() {
        if place % 2 == 1 {
            keys.push(key_in(alloc, word)?)?;
        }
    }
    Ok(keys)
}

// The key that a manifest spells as this word.
fn key_in(alloc: Global, word: &str) -> Result<Key, Fault>
    ensures { IfErr result IsNoManifest }
{
    let mut bytes = Vec::new(alloc);
    for (place, piece) in word.split("\\u00").enumerate() {
        let plain = if place > 0 {
            push_spelled(&mut bytes, piece)?
        } else {
            piece
        };
        bytes.extend_from_slice(plain.as_bytes())?;
    }
    match Key::new(&bytes) {
        Ok(key) => Ok(key),
        Err(_) => Err(NO_MANIFEST),
    }
}

// Puts in the byte that the first two digits spell, and gives what stands behind them.
fn push_spelled<'t>(bytes: &mut Vec<u8>, piece: &'t str) -> Result<&'t str, Fault>
    ensures { IfErr result IsNoManifest }
{
    let Some((digits, rest)) = piece.split_at_checked(2) else {
        return Err(NO_MANIFEST);
    };
    let Ok(byte) = u8::from_str_radix(digits, 16) else {
        return Err(NO_MANIFEST);
    };
    bytes.push(byte)?;
    Ok(rest)
}
