//! Over files of this machine, in a folder of its own. What is wanted is what the README's table says of each call.

use crate::HostPlace;
use named_files::{Beside, Place, put_in_place, replace, use_up};
use outside::{read_up_to, write_all};
use std::fs::OpenOptions;
use std::os::unix::fs::PermissionsExt;
use std::test::Fail;
use std::{fs, process};

// A new folder for a test.
fn new_folder(rt: &HostRuntime, name: &str) -> Result<String, Fail> {
    let folder = format!(in rt.alloc(); "/tmp/host_place_{name}_{}", process::id(rt.process()))?;
    let _was_there = fs::remove_dir_all(rt, folder.as_str());
    fs::create_dir(rt, folder.as_str())?;
    Ok(folder)
}

#[test]
fn a_file_takes_the_place_of_another(rt: HostRuntime) -> Result<(), Fail> {
    let alloc = rt.alloc();
    let folder = new_folder(&rt, "replace")?;
    let path = format!(in alloc; "{folder}/saved")?;
    let beside = format!(in alloc; "{path}.new")?;
    let mut place = HostPlace::new(alloc, &rt, path.as_str())?;
    assert!(&rt; place.open(alloc)?.is_none());
    fs::write(&rt, beside.as_str(), "what a crash left, with another mode")?;
    replace(&mut place, b"one")?;
    replace(&mut place, b"two")?;
    assert_eq!(&rt; fs::read(&rt, path.as_str())?.as_slice(), b"two".as_slice());
    assert_eq!(&rt;
        fs::metadata(&rt, path.as_str())?.permissions().mode() & 0o777,
        0o600
    );
    assert!(&rt; fs::metadata(&rt, beside.as_str()).is_err());
    fs::remove_dir_all(&rt, folder.as_str())?;
    Ok(())
}

#[test]
fn what_is_read_is_what_was_written_in_pieces(rt: HostRuntime) -> Result<(), Fail> {
    let alloc = rt.alloc();
    let folder = new_folder(&rt, "pieces")?;
    let path = format!(in alloc; "{folder}/saved")?;
    let mut beside = Beside {
        place: HostPlace::new(alloc, &rt, path.as_str())?,
    };
    beside.place.begin()?;
    for piece in ["a", "bc", "def"] {
        write_all(&mut beside, piece.as_bytes())?;
    }
    assert!(&rt; beside.place.open(alloc)?.is_none());
    put_in_place(&mut beside.place)?;
    let Some(mut file) = beside.place.open(alloc)? else {
        return Err(Fail::from(outside::Failed));
    };
    assert_eq!(&rt;
        read_up_to(alloc, &mut file, 100)?.as_slice(),
        b"abcdef".as_slice()
    );
    fs::remove_dir_all(&rt, folder.as_str())?;
    Ok(())
}

#[test]
fn a_file_is_used_once(rt: HostRuntime) -> Result<(), Fail> {
    let alloc = rt.alloc();
    let folder = new_folder(&rt, "once")?;
    let path = format!(in alloc; "{folder}/saved")?;
    let away = format!(in alloc; "{path}.loaded")?;
    let mut place = HostPlace::new(alloc, &rt, path.as_str())?;
    assert!(&rt; use_up(&mut place).is_err());
    replace(&mut place, b"one")?;
    use_up(&mut place)?;
    assert!(&rt; place.open(alloc)?.is_none());
    assert_eq!(&rt; fs::read(&rt, away.as_str())?.as_slice(), b"one".as_slice());
    fs::remove_dir_all(&rt, folder.as_str())?;
    Ok(())
}

#[test]
fn one_has_the_lock(rt: HostRuntime) -> Result<(), Fail> {
    let alloc = rt.alloc();
    let folder = new_folder(&rt, "lock")?;
    let path = format!(in alloc; "{folder}/saved")?;
    let mut first = HostPlace::new(alloc, &rt, path.as_str())?;
    let mut second = HostPlace::new(alloc, &rt, path.as_str())?;
    assert!(&rt; first.lock()?);
    replace(&mut first, b"one")?;
    assert!(&rt; !second.lock()?);
    drop(first);
    assert!(&rt; second.lock()?);
    fs::remove_dir_all(&rt, folder.as_str())?;
    Ok(())
}

// A folder that is gone, and one that is no folder.
#[test]
fn a_call_fails_where_the_folder_is_gone(rt: HostRuntime) -> Result<(), Fail> {
    let alloc = rt.alloc();
    let folder = new_folder(&rt, "gone")?;
    for path in ["gone/saved", "file/saved"] {
        let path = format!(in alloc; "{folder}/{path}")?;
        fs::write(&rt, format!(in alloc; "{folder}/file")?.as_str(), "")?;
        let mut place = HostPlace::new(alloc, &rt, path.as_str())?;
        assert!(&rt; place.lock().is_err());
        assert!(&rt; place.begin().is_err());
        assert!(&rt; place.append(b"one").is_err());
        assert!(&rt; place.sync_beside().is_err());
        assert!(&rt; place.rename().is_err());
        assert!(&rt; place.sync_names().is_err());
    }
    fs::remove_dir_all(&rt, folder.as_str())?;
    Ok(())
}

// A full disk, as the system's own file of that kind has it: what was not written whole gets no further byte and no name.
#[test]
fn a_file_on_a_full_disk_gets_no_name(rt: HostRuntime) -> Result<(), Fail> {
    let alloc = rt.alloc();
    let folder = new_folder(&rt, "full")?;
    let path = format!(in alloc; "{folder}/saved")?;
    let mut place = HostPlace::new(alloc, &rt, path.as_str())?;
    replace(&mut place, b"one")?;
    place.begin()?;
    let mut how = OpenOptions::new();
    how.write(true);
    place.beside = Some(how.open(&rt, "/dev/full")?);
    assert!(&rt; place.append(b"two").is_err());
    assert!(&rt; place.append(b"three").is_err());
    assert!(&rt; place.sync_beside().is_err());
    assert!(&rt; place.rename().is_err());
    assert_eq!(&rt; fs::read(&rt, path.as_str())?.as_slice(), b"one".as_slice());
    fs::remove_dir_all(&rt, folder.as_str())?;
    Ok(())
}
