//! Tokens and statements of mintc_vlex: those of a small module and of the worked netlist.
use mintc_tests_designs::TWO_NETLIST;
use mintc_vlex::{TokenKind, statements, tokens};
use std::test::Fail;

#[test]
fn a_small_module_has_its_tokens_and_statements(rt: HostRuntime) -> Result<(), Fail> {
    let text = b"module \\m (a); /* ; */ endmodule";
    let all = tokens(rt.alloc(), text.as_slice())?;
    assert!(rt; all.len() == 7 && all[1].kind == TokenKind::Escaped);
    let cut = statements(rt.alloc(), text.as_slice(), all.as_slice())?;
    assert!(rt; cut.len() == 2 && cut[1].from == 6);
    Ok(())
}

#[test]
fn the_worked_netlist_has_its_statements(rt: HostRuntime) -> Result<(), Fail> {
    let text = TWO_NETLIST.as_bytes();
    let all = tokens(rt.alloc(), text)?;
    assert!(rt; statements(rt.alloc(), text, &all)?.len() == 27);
    Ok(())
}
