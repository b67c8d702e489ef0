//! The numbers of refusals and of drop causes that users see.

use emu_model::{DropCause, Refusal};
use flow_mask::InstanceError;
use packet_store::PutError;

#[test]
fn refused_commands_have_their_numbers(rt: HostRuntime) {
    let numbers = [
        Refusal::BadNumber as u8,
        Refusal::BadSkip as u8,
        Refusal::RulesFull as u8,
        Refusal::NoRule as u8,
        Refusal::NoSuchPipe as u8,
        Refusal::MaskFixed as u8,
        Refusal::FlowThere as u8,
        Refusal::NoFlow as u8,
        Refusal::TooManyPipes as u8,
        Refusal::TooManyFlows as u8,
    ];
    assert_holds!(&rt; numbers == [10, 11, 12, 13, 20, 21, 22, 23, 24, 25]);
}

#[test]
fn drops_have_the_numbers_of_their_causes(rt: HostRuntime) {
    let numbers = [
        DropCause::Denied as u8,
        DropCause::NoPipe as u8,
        DropCause::NoInstance as u8,
        DropCause::Lost as u8,
        DropCause::Full as u8,
        DropCause::Codel as u8,
        DropCause::Deleted as u8,
        DropCause::Budget as u8,
    ];
    assert_holds!(&rt; numbers == [1, 2, 3, 4, 5, 6, 7, 8]);
}

#[test]
fn refused_packets_have_their_numbers(rt: HostRuntime) {
    let numbers = [
        PutError::OverBudget as u8,
        PutError::NoMemory as u8,
        InstanceError::NoMemory as u8,
    ];
    assert_holds!(&rt; numbers == [50, 99, 99]);
}
