ghost use Rattle.std.specs.Prelude.{◌≡◌, ◌++◌, ◌∷◌, [], ◌<◌, ◌^◌, All, length, map, IfOk, OnOk};
ghost use Rattle.std.specs.List.{flat_map};
ghost use Rattle.ceu_code.specs.Table.{low_first, type_byte};
ghost use Rattle.ceu_code.specs.Spelling as spec;
ghost use Rattle.ceu_code.specs.Spelling.{HasSpelling, counted, spelling};

use crate::image::{CodeRow, Image};
use ceu_base::{Port, Pos, Seq, Ty};
use std::alloc::{AllocError, Global};

/// What has a spelling by itself.
pub trait Spell {
    ghost use Rattle.std.specs.Prelude.{◌≡◌, ◌++◌, OnOk, List, ℕ};

    /// Its bytes.
    ghost spelled: { Self → List ℕ };

    /// What has them.
    ghost fits: { Self → Type 0 };

    /// Writes them at the end.
    fn put(&self, out: &mut Seq<u8>) -> Result<(), AllocError>
        requires { fits self.now }
        ensures { OnOk result (out.new ≡ out.old ++ spelled self.now) };
}

/// Writes a number in so many bytes, the lowest first.
pub fn put_number(out: &mut Seq<u8>, width: u8, number: u64) -> Result<(), AllocError>
    ensures { OnOk result (out.new ≡ out.old ++ low_first width number) }
{
    let mut rest = number;
    for _ in 0..width {
        out.push((rest % 256) as u8)?;
        rest /= 256;
    }
    Ok(())
}

pub fn put_half(out: &mut Seq<u8>, number: u16) -> Result<(), AllocError>
    ensures { OnOk result (out.new ≡ out.old ++ spec.half number) }
{
    put_number(out, 2, u64::from(number))
}

pub fn put_word(out: &mut Seq<u8>, number: u32) -> Result<(), AllocError>
    ensures { OnOk result (out.new ≡ out.old ++ spec.word number) }
{
    put_number(out, 4, u64::from(number))
}

fn put_bytes(out: &mut Seq<u8>, bytes: &[u8]) -> Result<(), AllocError>
    ensures { OnOk result (out.new ≡ out.old ++ bytes.now) }
{
    for byte in bytes {
        out.push(*byte)?;
    }
    Ok(())
}

/// The number of a type.
pub fn number_of(ty: Ty) -> u8
    ensures { result ≡ type_byte ty }
{
    match ty {
        Ty::None => 0,
        Ty::Bool => 1,
        Ty::U8 => 2,
        Ty::S8 => 3,
        Ty::U16 => 4,
        Ty::S16 => 5,
        Ty::U32 => 6,
        Ty::S32 => 7,
        Ty::U64 => 8,
        Ty::S64 => 9,
    }
}

impl Spell for u16 {
    ghost spelled = { spec.half };

    ghost fits = { λ _. Unit {0} };

    fn put(&self, out: &mut Seq<u8>) -> Result<(), AllocError> {
        put_half(out, *self)
    }
}

impl Spell for Ty {
    ghost use Rattle.std.specs.Prelude.{◌∷◌, []};
    ghost use Rattle.ceu_code.specs.Table.{type_byte};

    ghost spelled = { λ t. type_byte t ∷ [] };

    ghost fits = { λ _. Unit {0} };

    fn put(&self, out: &mut Seq<u8>) -> Result<(), AllocError> {
        out.push(number_of(*self))
    }
}

impl Spell for Port {
    ghost spelled = { spec.port };

    ghost fits = { spec.HasShortName };

    fn put(&self, out: &mut Seq<u8>) -> Result<(), AllocError> {
        let name = self.name.text().as_bytes();
        out.push(number_of(self.ty))?;
        out.push(name.len() as u8)?;
        put_bytes(out, name)?;
        Ok(())
    }
}

impl Spell for CodeRow {
    ghost spelled = { spec.code_row };

    ghost fits = { spec.HasFewParams };

    fn put(&self, out: &mut Seq<u8>) -> Result<(), AllocError> {
        put_half(out, self.entry)?;
        put_half(out, self.frame)?;
        put_half(out, self.gates)?;
        put_params(out, &self.params)?;
        Ok(())
    }
}

fn put_params(out: &mut Seq<u8>, params: &Seq<Ty>) -> Result<(), AllocError>
    requires { length params.now < 256 }
    ensures { OnOk result (out.new ≡ out.old ++ (length params.now ∷ map type_byte params.now)) }
{
    out.push(params.items().len() as u8)?;
    put_items(out, params.items())?;
    Ok(())
}

impl Spell for Pos {
    ghost spelled = { spec.position };

    ghost fits = { λ _. Unit {0} };

    fn put(&self, out: &mut Seq<u8>) -> Result<(), AllocError> {
        put_word(out, self.line)?;
        put_word(out, self.col)?;
        Ok(())
    }
}

fn put_items<T: Spell>(out: &mut Seq<u8>, items: &[T]) -> Result<(), AllocError>
    requires { All T.fits items.now }
    ensures { OnOk result (out.new ≡ out.old ++ flat_map T.spelled items.now) }
{
    for item in items {
        item.put(out)?;
    }
    Ok(())
}

/// Writes the count of the items, and then each of them.
fn put_counted<T: Spell>(out: &mut Seq<u8>, items: &Seq<T>) -> Result<(), AllocError>
    requires few { length items.now < 2 ^ 16 }
    requires fit { All T.fits items.now }
    ensures { OnOk result (out.new ≡ out.old ++ counted T.spelled items.now) }
{
    put_half(out, items.items().len() as u16)?;
    put_items(out, items.items())?;
    Ok(())
}

fn put_numbers(out: &mut Seq<u8>, image: &Image) -> Result<(), AllocError>
    ensures { OnOk result (out.new ≡ out.old ++ spec.numbers image.now) }
{
    put_word(out, image.turns)?;
    put_half(out, image.levels)?;
    put_half(out, image.depth)?;
    put_half(out, image.gates)?;
    put_half(out, image.slots)?;
    Ok(())
}

fn put_pools(out: &mut Seq<u8>, pools: &Seq<u16>) -> Result<(), AllocError>
    requires { length pools.now < 2 ^ 16 }
    ensures { OnOk result (out.new ≡ out.old ++ spec.pool_list pools.now) }
{
    if pools.items().is_empty() {
        return Ok(());
    }
    put_counted(out, pools)
}

fn put_lists(out: &mut Seq<u8>, image: &Image) -> Result<(), AllocError>
    requires { HasSpelling image.now }
    ensures { OnOk result (out.new ≡ out.old ++ spec.lists image.now) }
{
    put_counted(out, &image.inputs)?;
    put_counted(out, &image.outputs)?;
    put_counted(out, &image.codes)?;
    put_pools(out, &image.pools)?;
    put_counted(out, &image.places)?;
    Ok(())
}

fn version_of(pools: &Seq<u16>) -> u8
    ensures { result ≡ spec.version pools.now }
{
    if pools.items().is_empty() { 1 } else { 2 }
}

/// The letters CEU, and the version.
fn put_head(out: &mut Seq<u8>, version: u8) -> Result<(), AllocError>
    ensures { OnOk result (out.new ≡ out.old ++ (67 ∷ 69 ∷ 85 ∷ version ∷ [])) }
{
    out.push(b'C')?;
    out.push(b'E')?;
    out.push(b'U')?;
    out.push(version)?;
    Ok(())
}

fn put_code(out: &mut Seq<u8>, code: &Seq<u8>) -> Result<(), AllocError>
    requires { length code.now < 2 ^ 16 }
    ensures { OnOk result (out.new ≡ out.old ++ (spec.half (length code.now) ++ code.now)) }
{
    put_half(out, code.items().len() as u16)?;
    put_bytes(out, code.items())?;
    Ok(())
}

/// The one spelling of an image.
pub fn encode(alloc: Global, image: &Image) -> Result<Seq<u8>, AllocError>
    requires { HasSpelling image.now }
    ensures { IfOk result (λ bytes. bytes ≡ spelling image.now) }
{
    let mut out = Seq::new(alloc);
    put_head(&mut out, version_of(&image.pools))?;
    put_numbers(&mut out, image)?;
    put_lists(&mut out, image)?;
    put_code(&mut out, &image.code)?;
    Ok(out)
}
