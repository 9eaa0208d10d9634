//! Values, operators, faults, names and lists that the other crates speak of.
#![tactic(auto)]

mod arithmetic;
mod kinds;
mod name;
mod seq;

pub use arithmetic::{apply1, apply2, is_value, width, wrap};
pub use kinds::{CheckError, Fault, Mark, Op1, Op2, Port, Pos, Rule, Ty};
pub use name::Name;
pub use seq::Seq;

#[cfg(test)]
mod tests {
    use super::*;
    use std::test::Fail;

    #[test]
    fn operators_give_the_exact_result_or_the_fault(rt: HostRuntime) {
        assert_eq!(rt; apply2(Op2::Div, Ty::S32, -7, 2), Ok(-3));
        assert_eq!(rt; apply2(Op2::Rem, Ty::S32, -7, 2), Ok(-1));
        assert_eq!(rt; apply2(Op2::Shr, Ty::S32, -7, 1), Ok(-4));
        assert_eq!(rt; apply2(Op2::Shl, Ty::U8, 128, 1), Err(Fault::Overflow));
        assert_eq!(rt; apply2(Op2::Shl, Ty::U8, 1, 8), Err(Fault::Shift));
        assert_eq!(rt; apply2(Op2::Rem, Ty::U8, 1, 0), Err(Fault::DivZero));
        assert_eq!(rt;
            apply2(
                Op2::Mul,
                Ty::U64,
                18446744073709551615,
                18446744073709551615
            ),
            Err(Fault::Overflow)
        );
        assert_eq!(rt; apply2(Op2::BitXor, Ty::S8, -1, 1), Ok(-2));
        assert_eq!(rt; apply1(Op1::Neg, Ty::S8, -128), Err(Fault::Overflow));
        assert_eq!(rt; apply1(Op1::Compl, Ty::U8, 0), Ok(255));
        assert_eq!(rt; wrap(Ty::S8, 200), -56);
        assert_eq!(rt; wrap(Ty::Bool, 200), 1);
    }

    #[test]
    fn a_name_keeps_its_text_and_a_list_its_items(rt: HostRuntime) -> Result<(), Fail> {
        let name = Name::new(rt.alloc(), "O")?;
        assert_eq!(rt; name.text(), "O");
        let mut names = Seq::new(rt.alloc());
        names.push(name)?;
        assert_eq!(rt; names.items().len(), 1);
        Ok(())
    }
}
