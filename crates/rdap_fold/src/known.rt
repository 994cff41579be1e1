// What the system knows of a file that is there already.
use files::path_of;
use std::fs;
use std::os::unix::fs::MetadataExt;
use std::rt::Files;

// What a file in its place is to have, and whether it is a file that holds bytes, and no folder or device.
#[derive(Clone, Copy)]
pub struct Known {
    pub owner: u32,
    pub group: u32,
    pub permissions: u32,
    pub is_regular: bool,
}

// Nothing, if there is no such file or the system does not say.
pub fn of_file(rt: &impl Files, name: &[u8]) -> Option<Known> {
    let Ok(path) = path_of(name) else {
        return None;
    };
    match fs::metadata(rt, path) {
        Ok(file) => Some(Known {
            owner: file.uid(),
            group: file.gid(),
            permissions: file.mode() & 0o777,
            is_regular: file.is_file(),
        }),
        Err(_) => None,
    }
}
