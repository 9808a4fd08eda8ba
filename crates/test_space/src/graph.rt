//! The table of operations, on a small example.
use lxr_graph::{Graph, Op, Reply, step_keeps_rows};
use std::test::Fail;

#[test]
fn replies_of_operations(rt: HostRuntime) -> Result<(), Fail> {
    let mut graph = Graph::new(rt.alloc(), 1)?;
    for (op, reply) in [
        (Op::Move { dest: 1, source: 0 }, Reply::Moved),
        (
            Op::Load {
                dest: 1,
                base: 2,
                index: 0,
            },
            Reply::Bad,
        ),
        (
            Op::Load {
                dest: 1,
                base: 0,
                index: 64,
            },
            Reply::Range,
        ),
        (Op::Same { left: 1, right: 0 }, Reply::Same(true)),
    ] {
        step_keeps_rows();
        assert!(rt; graph.apply(rt.alloc(), 1, op)? == reply, "{op:?}");
    }
    Ok(())
}
