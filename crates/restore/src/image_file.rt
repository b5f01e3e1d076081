// An image comes to its path whole.
use crate::refusal::Refusal;
use image_pieces::{ArrayImage, PIECE_LEN, Piece};
use media_file::FileMedia;
use restore_runs::holds_array;
use std::fs;
use std::fs::File;
use std::io::Result as IoResult;
use std::os::unix::fs::FileExt;
use std::path::{Path, PathBuf};
use std::rt::Files;
use table_builder::DataImage;

/// Where an image is to stand.
#[derive(Drop)]
pub enum Place<'a> {
    /// At this path, where nothing stands.
    New(&'a str),
    /// In the place of the file of this path.
    Old(PathBuf),
}

impl Place<'_> {
    fn path(&self) -> Path<'_> {
        match self {
            Place::New(path) => Path::new(path),
            Place::Old(path) => path.as_path(),
        }
    }
}

/// Where the image of this path is to stand. If something stands there, it has to be a file that holds an array, which may be replaced.
pub fn test_place<'a, R>(rt: &R, path: &'a str, replace: bool) -> Result<Place<'a>, Refusal>
where
    R: AllocGlobal + Files<File = File>,
{
    let mut media = match FileMedia::attach(rt, path, 0) {
        Ok(Some(media)) => media,
        Ok(None) => return Ok(Place::New(path)),
        Err(_) => return Err(Refusal::Media),
    };
    if !replace || !fs::metadata(rt, path)?.is_file() {
        return Err(Refusal::Exists);
    }
    match holds_array(&mut media) {
        Ok(true) => Ok(Place::Old(Path::new(path).canonicalize(rt)?)),
        Ok(false) => Err(Refusal::NotMars),
        Err(_) => Err(Refusal::Media),
    }
}

/// Writes the image beside its place and then moves it there, with a sync of the file and of the folder. What fails leaves the place as it was,
/// and nothing beside it.
pub fn put_image<R>(
    rt: &R,
    place: &Place<'_>,
    process: u32,
    image: &mut ArrayImage<DataImage>,
) -> IoResult<()>
where
    R: AllocGlobal + Files<File = File>,
{
    let path = place.path();
    let text = path.as_str();
    let beside = format!(in rt.alloc(); "{text}.{process}.new")?;
    let file = File::create_new(rt, beside.as_str())?;
    let done = fill(&file, image).and_then(|()| settle(rt, beside.as_str(), place));
    if done.is_err() {
        let _ = fs::remove_file(rt, beside.as_str());
    }
    done
}

// What is zero of an image stays a hole of its new file, which reads as zeros.
fn fill(file: &File, image: &mut ArrayImage<DataImage>) -> IoResult<()> {
    file.set_len(image.len())?;
    let mut out = [0; PIECE_LEN];
    while let Some(piece) = image.next(&mut out) {
        if let Piece::Bytes { at, len } = piece {
            file.write_all_at(&out[..len], at)?;
        }
    }
    file.sync_all()
}

// A new image gets its path by a link, which fails where something has come there meanwhile.
fn settle<R: AllocGlobal + Files<File = File>>(
    rt: &R,
    beside: &str,
    place: &Place<'_>,
) -> IoResult<()> {
    match place {
        Place::New(path) => {
            fs::hard_link(rt, beside, *path)?;
            fs::remove_file(rt, beside)?;
        }
        Place::Old(path) => {
            fs::set_permissions(rt, beside, fs::metadata(rt, path.as_path())?.permissions())?;
            fs::rename(rt, beside, path.as_path())?;
        }
    }
    File::open(rt, folder_of(place.path()))?.sync_all()
}

fn folder_of(path: Path<'_>) -> Path<'_> {
    match path.parent() {
        Some(folder) if !folder.as_str().is_empty() => folder,
        _ => Path::new("."),
    }
}
