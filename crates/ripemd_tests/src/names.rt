//! The names of the hash functions, and the texts of `Debug`.

use ripemd::block_api::{
    AlgorithmName, Ripemd128Core, Ripemd160Core, Ripemd256Core, Ripemd320Core,
};
use ripemd::replay::ReplayError;
use ripemd::state::DeserializeStateError;
use ripemd::{Digest, Ripemd128, Ripemd160, Ripemd256, Ripemd320};
use std::alloc::{AllocError, Global};
use std::fmt;
use std::fmt::Write;
use std::marker::PhantomData;
use std::test::Fail;

// Shown as the name of a type's hash function.
#[derive(Drop)]
struct NameOf<T: AlgorithmName> {
    of: PhantomData<T>,
}

impl<T: AlgorithmName> fmt::Display for NameOf<T> {
    fn fmt<W: fmt::Write>(&self, f: &mut fmt::Formatter<W>) -> fmt::Result {
        T::write_alg_name(f)
    }
}

// A writer that takes nothing.
#[derive(Drop)]
struct Refusing;

impl fmt::Write for Refusing {
    fn write_str(&mut self, _text: &str) -> fmt::Result {
        Err(fmt::Error)
    }
}

// Whether a core or hasher has this name, as a constant and as written, and this text for `Debug`.
// Width and precision change nothing, and an error of the writer comes back.
fn is_named<T>(alloc: Global, value: &T, name: &str, debug_text: &str) -> Result<bool, AllocError>
where
    T: AlgorithmName + fmt::Debug,
{
    let shown = NameOf::<T> { of: PhantomData };
    let plain = format!(in alloc; "{shown}")?;
    let wide = format!(in alloc; "{shown:20.3}")?;
    let debug = format!(in alloc; "{value:?}")?;
    Ok(
        T::ALG_NAME == name
            && plain.as_str() == name
            && wide.as_str() == name
            && write!(Refusing, "{shown}").is_err()
            && debug.as_str() == debug_text,
    )
}

#[test]
fn names(rt: HostRuntime) -> Result<(), Fail> {
    let alloc = rt.alloc();
    assert!(rt; is_named(alloc, &Ripemd128::new(), "Ripemd128", "Ripemd128 { ... }")?);
    assert!(rt; is_named(alloc, &Ripemd160::new(), "Ripemd160", "Ripemd160 { ... }")?);
    assert!(rt; is_named(alloc, &Ripemd256::new(), "Ripemd256", "Ripemd256 { ... }")?);
    assert!(rt; is_named(alloc, &Ripemd320::new(), "Ripemd320", "Ripemd320 { ... }")?);
    let core = Ripemd128Core::default();
    assert!(rt; is_named(alloc, &core, "Ripemd128", "Ripemd128Core { ... }")?);
    let core = Ripemd160Core::default();
    assert!(rt; is_named(alloc, &core, "Ripemd160", "Ripemd160Core { ... }")?);
    let core = Ripemd256Core::default();
    assert!(rt; is_named(alloc, &core, "Ripemd256", "Ripemd256Core { ... }")?);
    let core = Ripemd320Core::default();
    assert!(rt; is_named(alloc, &core, "Ripemd320", "Ripemd320Core { ... }")?);
    Ok(())
}

#[test]
fn identifiers(rt: HostRuntime) {
    assert!(rt; Ripemd128::OID == "1.3.36.3.2.2");
    assert!(rt; Ripemd160::OID == "1.3.36.3.2.1");
    assert!(rt; Ripemd256::OID == "1.3.36.3.2.3");
}

#[test]
fn error_texts(rt: HostRuntime) -> Result<(), Fail> {
    let text = format!(in rt.alloc(); "{DeserializeStateError}")?;
    assert!(rt; text.as_str() == "Deserialization error");
    let text = format!(in rt.alloc(); "{}", ReplayError::OutOfMemory)?;
    assert!(rt; text.as_str() == "out of memory");
    Ok(())
}
