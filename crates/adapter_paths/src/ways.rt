//! The ways of paths to their files, name by name.
ghost use Rattle.std.specs.Prelude.{◌≡◌, ◌++◌, ◌∷◌, [], IfOk, OnOk, option_map};
ghost use Rattle.std.specs.Path.{component_bytes};
ghost use Rattle.adapter_paths.specs.Ways as spec;
ghost use Rattle.adapter_paths.specs.Ways.{names_of};

use std::alloc::{AllocError, Global};
use std::path::{Component, Path};

/// What a whole path begins with.
const ROOT: &str = "/";

/// The folder that is one up.
const UP: &str = "..";

/// The folder itself.
const HERE: &str = ".";

/// Whether a source's path is the program's, though one is spelled otherwise: `.` and what stands twice between slashes count for nothing,
/// and `..` takes back the name before it. Where the program's path is not whole, a whole path that ends as it does is its own too.
/// Links between folders are not followed.
///
/// # Errors
///
/// Out of memory.
pub fn is_same_file(alloc: Global, program: &str, source: &str) -> Result<bool, AllocError>
    ensures { IfOk result (λ is_same. is_same ≡ spec.is_same_file program.now source.now) }
{
    let program = way_of(alloc, program)?;
    let source = way_of(alloc, source)?;
    Ok(is_same_way(program.as_slice(), source.as_slice()))
}

/// The way of a path to its file.
fn way_of(alloc: Global, path: &str) -> Result<Vec<&str>, AllocError>
    ensures { IfOk result (λ way. names_of way.items ≡ spec.way_of path.now) }
{
    let mut way = Vec::new(alloc);
    for component in Path::new(path).components() {
        go(&mut way, component)?;
    }
    Ok(way)
}

/// Goes one component further.
fn go<'a>(way: &mut Vec<&'a str>, component: Component<'a>) -> Result<(), AllocError>
    ensures { OnOk result (names_of way.new.items ≡ spec.gone (names_of way.old.items) (component_bytes component.entry)) }
{
    let name = component.as_os_str();
    if name == HERE {
        Ok(())
    } else if name == UP {
        go_up(way)
    } else {
        put(way, name)
    }
}

/// Puts a name behind a way.
fn put<'a>(way: &mut Vec<&'a str>, name: &'a str) -> Result<(), AllocError>
    ensures { OnOk result (names_of way.new.items ≡ names_of way.old.items ++ name.now ∷ []) }
{
    way.push(name)?;
    Ok(())
}

/// Goes one up.
fn go_up(way: &mut Vec<&str>) -> Result<(), AllocError>
    ensures { OnOk result (names_of way.new.items ≡ spec.gone_up (names_of way.old.items)) }
{
    match last_of(way.as_slice()) {
        None => put(way, UP),
        Some(name) if name == ROOT => Ok(()),
        Some(name) if name == UP => put(way, UP),
        Some(_) => {
            let _ = way.pop();
            Ok(())
        }
    }
}

/// The last name of a way, if there is one.
fn last_of<'a>(way: &[&'a str]) -> Option<&'a str>
    ensures { option_map (λ name. name.now) result ≡ spec.last_of (names_of way.now) }
{
    way.last().copied()
}

/// Whether two ways lead to one file.
fn is_same_way(program: &[&str], source: &[&str]) -> bool
    ensures { result ≡ spec.is_same_way (names_of program.now) (names_of source.now) }
{
    ends_with(source, program) && (program.len() == source.len() || is_end(program, source))
}

/// Whether a way may be the end of another one: some names behind a folder that is not said.
fn is_end(program: &[&str], source: &[&str]) -> bool
    ensures { result ≡ spec.is_end (names_of program.now) (names_of source.now) }
{
    !program.is_empty() && !is_whole(program) && is_whole(source)
}

/// Whether a way begins at the root.
fn is_whole(way: &[&str]) -> bool
    ensures { result ≡ spec.is_whole (names_of way.now) }
{
    match way.first() {
        None => false,
        Some(name) => *name == ROOT,
    }
}

/// Whether a way ends with the names of another one.
fn ends_with(way: &[&str], end: &[&str]) -> bool
    ensures { result ≡ spec.ends_so (names_of way.now) (names_of end.now) }
{
    way.ends_with(end)
}
