//! The symbols of a made file and their names.
ghost use Rattle.std.specs.Prelude.{◌≡◌, ◌+◌, ◌*◌, ◌≤◌, ◌++◌, IfOk, OnOk, All, length, map, replicate};
ghost use Rattle.ro_make.specs.Names.{named, symbol_of, symbols_of, texts_of, strings_of};

use std::alloc::{AllocError, Global};

// The symbol of a function, whose name stands at a place among the strings.
#[tactic(auto, unfolding(crate::specs::Names::symbol_of))]
fn symbol(place: u32, value: u32) -> [u8; 16]
    ensures { result ≡ symbol_of place value }
{
    let [a, b, c, d] = place.to_le_bytes();
    let [e, f, g, h] = value.to_le_bytes();
    [a, b, c, d, e, f, g, h, 0, 0, 0, 0, 18, 0, 1, 0]
}

/// The symbols of functions with their addresses, behind one of zeros.
pub(crate) fn symbols(alloc: Global, names: &[(&str, u32)]) -> Result<Vec<u8>, AllocError>
    requires few { length names.now ≤ 65536 }
    requires short { All (λ name. length name.0.now ≤ 64) names.now }
    ensures made { IfOk result (λ file. file.items ≡ symbols_of (map (λ name. named name.0.now name.1) names.now)) }
    ensures few { IfOk result (λ file. length file.items ≤ 16 + 16 * length names.now) }
{
    let mut file = Vec::from_slice(alloc, &[0; 16])?;
    let mut place = 1;
    for (name, value) in names {
        file.extend_from_slice(&symbol(place, *value))?;
        place += name.len() as u32 + 1;
    }
    Ok(file)
}

/// The names of functions, each with a zero byte behind it, behind one zero byte, and zeros up to a multiple of 4.
pub(crate) fn strings(alloc: Global, names: &[(&str, u32)]) -> Result<Vec<u8>, AllocError>
    requires few { length names.now ≤ 65536 }
    requires short { All (λ name. length name.0.now ≤ 64) names.now }
    ensures made { IfOk result (λ file. file.items ≡ strings_of (map (λ name. named name.0.now name.1) names.now)) }
    ensures few { IfOk result (λ file. length file.items ≤ 4 + 65 * length names.now) }
{
    let mut file = texts(alloc, names)?;
    let padding = (4 - file.len() % 4) % 4;
    push_zeros(&mut file, padding)?;
    Ok(file)
}

// The names of functions, each with a zero byte behind it, behind one zero byte.
fn texts(alloc: Global, names: &[(&str, u32)]) -> Result<Vec<u8>, AllocError>
    requires few { length names.now ≤ 65536 }
    requires short { All (λ name. length name.0.now ≤ 64) names.now }
    ensures made { IfOk result (λ file. file.items ≡ texts_of (map (λ name. named name.0.now name.1) names.now)) }
    ensures few { IfOk result (λ file. length file.items ≤ 1 + 65 * length names.now) }
{
    let mut file = Vec::from_slice(alloc, &[0])?;
    for (name, _) in names {
        file.extend_from_slice(name.as_bytes())?;
        file.push(0)?;
    }
    Ok(file)
}

// So many zeros more.
fn push_zeros(file: &mut Vec<u8>, count: usize) -> Result<(), AllocError>
    ensures { OnOk result (file.new.items ≡ file.old.items ++ replicate count 0) }
{
    for _ in 0..count {
        file.push(0)?;
    }
    Ok(())
}
