// Tests of the fields where no line of the program `judge` comes: tables of another length than the modulus, what a refusal
// leaves behind, a field that two others share, and numbers that are no codes.
#![tactic(auto)]

#[cfg(test)]
mod tests {
    use fields::{Field, FieldRefusal, Nine, Pairs, Residues};
    use std::test::Fail;

    // What filling a table of N nines for m answers, with the number of a refusal, and what it leaves of the table.
    fn filled<const N: usize>(m: u16) -> (Result<(), u8>, [u16; N]) {
        let mut table = [9; N];
        let answer = Residues::fill(m, &mut table).map_err(FieldRefusal::number);
        (answer, table)
    }

    #[test]
    fn a_short_table_is_refused_and_left(rt: HostRuntime) {
        assert_eq!(rt; filled::<6>(7), (Err(3), [9; 6]));
    }

    #[test]
    fn a_long_table_is_refused_and_left(rt: HostRuntime) {
        assert_eq!(rt; filled::<8>(7), (Err(3), [9; 8]));
    }

    #[test]
    fn the_modulus_is_looked_at_before_the_table(rt: HostRuntime) {
        assert_eq!(rt; filled::<6>(8), (Err(2), [9; 6]));
    }

    #[test]
    fn a_code_without_inverse_leaves_zeros(rt: HostRuntime) {
        assert_eq!(rt; filled::<9>(9), (Err(6), [0; 9]));
    }

    #[test]
    fn the_table_has_the_inverses(rt: HostRuntime) {
        assert_eq!(rt; filled::<7>(7), (Ok(()), [0, 1, 4, 5, 2, 3, 6]));
    }

    #[test]
    fn refused_pairs_hand_the_field_back(rt: HostRuntime) -> Result<(), Fail> {
        let Err((below, refusal)) = Pairs::over(Nine::new(), 3) else {
            return Err(Fail::new("3 is a square"));
        };
        assert_eq!(rt; refusal.number(), 7);
        assert_eq!(rt; below.product(4, 5), 1);
        Ok(())
    }

    #[test]
    fn two_pairs_share_a_field_that_is_lent(rt: HostRuntime) -> Result<(), Fail> {
        let nine = Nine::new();
        let (Ok(fours), Ok(fives)) = (Pairs::over(&nine, 4), Pairs::over(&nine, 5)) else {
            return Err(Fail::new("4 and 5 are no squares"));
        };
        assert_eq!(rt; (fours.size(), fives.size()), (81, 81));
        assert_eq!(rt; (fours.product(9, 9), fives.product(9, 9)), (4, 5));
        Ok(())
    }

    #[test]
    fn numbers_that_are_no_codes_are_answered_by_zero(rt: HostRuntime) {
        let field = Residues::on(3, &[0, 1, 2]);
        assert_eq!(rt; (field.sum(3, 1), field.product(1, 3)), (0, 0));
        assert_eq!(rt; (field.negative(4), field.inverse(4)), (0, 0));
    }
}
