//! Kept results and executions (`remote_execution.proto`, GetActionResultRequest, ExecuteRequest,
//! ExecuteResponse, WaitExecutionRequest).

use crate::numbers::{
    execute_request, execute_response, get_action_result_request, wait_execution_request,
};
use rx_base::{Digest, Items, NoMemory, Text};
use rx_codec::{FieldList, Message, MessageFault, Shape, Writer, check_message, check_text};
use rx_messages::{ActionResult, Status};
use rx_wire::{Fields, Value, WireFault};
use std::alloc::Global;

/// The call ActionCache/GetActionResult: the kept result of an action is asked for.
#[derive(Debug, Drop)]
pub struct GetActionResultRequest {
    /// The name of the instance of the server; empty where it has but one.
    pub instance_name: Text,
    /// The digest of the Action's bytes.
    pub action_digest: Option<Digest>,
    /// Whether the text of the standard output is wanted in the answer.
    pub inline_stdout: bool,
    /// Whether the text of the standard error is wanted in the answer.
    pub inline_stderr: bool,
    /// The paths of output files whose contents are wanted in the answer, in order.
    pub inline_output_files: Items<Text>,
}

impl Shape for GetActionResultRequest {
    ghost use Rattle.rx_exec_messages.specs.Executions.{get_action_result_request_parts};

    ghost parts = { get_action_result_request_parts };
}

impl Message for GetActionResultRequest {
    ghost use Rattle.rx_codec.specs.Decoding.{any_form};
    ghost use Rattle.rx_exec_messages.specs.Executions.{get_action_result_request_fields};
    ghost use Rattle.rx_exec_messages.specs.Executions.{get_action_result_request_from};
    ghost use Rattle.rx_exec_messages.specs.Executions.{get_action_result_request_is_readable};

    ghost fields = { get_action_result_request_fields };

    ghost from = { get_action_result_request_from };

    ghost is_canonical = { any_form };

    ghost IsReadable = { get_action_result_request_is_readable };

    #[tactic(auto, unfolding(rx_codec::specs::Parts::part_checked))]
    fn check_field(number: u32, value: Value<'_>, read: &Fields<'_>) -> Result<(), WireFault> {
        match number {
            get_action_result_request::INSTANCE_NAME
            | get_action_result_request::INLINE_OUTPUT_FILES => check_text(number, value, read),
            get_action_result_request::ACTION_DIGEST => check_message::<Digest>(
                number, value, read,
            ),
            _ => Ok(()),
        }
    }

    #[tactic(auto, unfolding(crate::specs::Executions::get_action_result_request_from))]
    fn from_fields(
        alloc: Global,
        list: &FieldList<'_, GetActionResultRequest>,
    ) -> Result<GetActionResultRequest, MessageFault> {
        let instance_name = list.text(alloc, get_action_result_request::INSTANCE_NAME)?;
        let action_digest = list.message(alloc, get_action_result_request::ACTION_DIGEST)?;
        let inline_stdout = list.truth(get_action_result_request::INLINE_STDOUT);
        let inline_stderr = list.truth(get_action_result_request::INLINE_STDERR);
        let inline_output_files = list.texts(
            alloc,
            get_action_result_request::INLINE_OUTPUT_FILES,
        )?;
        Ok(GetActionResultRequest {
            instance_name,
            action_digest,
            inline_stdout,
            inline_stderr,
            inline_output_files,
        })
    }

    #[tactic(auto, unfolding(crate::specs::Executions::get_action_result_request_fields))]
    fn write(
        &self,
        alloc: Global,
        out: &mut Writer<GetActionResultRequest>,
    ) -> Result<(), NoMemory> {
        out.text(
            get_action_result_request::INSTANCE_NAME,
            self.instance_name.as_str(),
        )?;
        out.message(
            alloc,
            get_action_result_request::ACTION_DIGEST,
            &self.action_digest,
        )?;
        out.truth(get_action_result_request::INLINE_STDOUT, self.inline_stdout)?;
        out.truth(get_action_result_request::INLINE_STDERR, self.inline_stderr)?;
        out.texts(
            get_action_result_request::INLINE_OUTPUT_FILES,
            &self.inline_output_files,
        )
    }

    fn has_one_form(&self, alloc: Global, bytes: &[u8]) -> Result<bool, NoMemory> {
        Ok(true)
    }
}

/// The call Execution/Execute: an action is to be run.
#[derive(Debug, Drop)]
pub struct ExecuteRequest {
    /// The name of the instance of the server; empty where it has but one.
    pub instance_name: Text,
    /// Whether the action is to run also where its result is kept.
    pub skip_cache_lookup: bool,
    /// The digest of the Action's bytes.
    pub action_digest: Option<Digest>,
}

impl Shape for ExecuteRequest {
    ghost use Rattle.rx_exec_messages.specs.Executions.{execute_request_parts};

    ghost parts = { execute_request_parts };
}

impl Message for ExecuteRequest {
    ghost use Rattle.rx_codec.specs.Decoding.{any_form};
    ghost use Rattle.rx_exec_messages.specs.Executions.{execute_request_fields};
    ghost use Rattle.rx_exec_messages.specs.Executions.{execute_request_from};
    ghost use Rattle.rx_exec_messages.specs.Executions.{execute_request_is_readable};

    ghost fields = { execute_request_fields };

    ghost from = { execute_request_from };

    ghost is_canonical = { any_form };

    ghost IsReadable = { execute_request_is_readable };

    #[tactic(auto, unfolding(rx_codec::specs::Parts::part_checked))]
    fn check_field(number: u32, value: Value<'_>, read: &Fields<'_>) -> Result<(), WireFault> {
        match number {
            execute_request::INSTANCE_NAME => check_text(number, value, read),
            execute_request::ACTION_DIGEST => check_message::<Digest>(number, value, read),
            _ => Ok(()),
        }
    }

    #[tactic(auto, unfolding(crate::specs::Executions::execute_request_from))]
    fn from_fields(
        alloc: Global,
        list: &FieldList<'_, ExecuteRequest>,
    ) -> Result<ExecuteRequest, MessageFault> {
        let instance_name = list.text(alloc, execute_request::INSTANCE_NAME)?;
        let skip_cache_lookup = list.truth(execute_request::SKIP_CACHE_LOOKUP);
        let action_digest = list.message(alloc, execute_request::ACTION_DIGEST)?;
        Ok(ExecuteRequest {
            instance_name,
            skip_cache_lookup,
            action_digest,
        })
    }

    #[tactic(auto, unfolding(crate::specs::Executions::execute_request_fields))]
    fn write(&self, alloc: Global, out: &mut Writer<ExecuteRequest>) -> Result<(), NoMemory> {
        out.text(execute_request::INSTANCE_NAME, self.instance_name.as_str())?;
        out.truth(execute_request::SKIP_CACHE_LOOKUP, self.skip_cache_lookup)?;
        out.message(alloc, execute_request::ACTION_DIGEST, &self.action_digest)
    }

    fn has_one_form(&self, alloc: Global, bytes: &[u8]) -> Result<bool, NoMemory> {
        Ok(true)
    }
}

/// How an execution ended. It comes in the `response` of an Operation that is done.
#[derive(Debug, Drop)]
pub struct ExecuteResponse {
    /// None where the action didn't end.
    pub result: Option<ActionResult>,
    /// Whether the result was a kept one.
    pub cached_result: bool,
    /// None, or a code other than 0 where the action didn't end as it should.
    pub status: Option<Status>,
    /// A text for people.
    pub message: Text,
}

impl Shape for ExecuteResponse {
    ghost use Rattle.rx_exec_messages.specs.Executions.{execute_response_parts};

    ghost parts = { execute_response_parts };
}

impl Message for ExecuteResponse {
    ghost use Rattle.rx_codec.specs.Decoding.{any_form};
    ghost use Rattle.rx_exec_messages.specs.Executions.{execute_response_fields};
    ghost use Rattle.rx_exec_messages.specs.Executions.{execute_response_from};
    ghost use Rattle.rx_exec_messages.specs.Executions.{execute_response_is_readable};

    ghost fields = { execute_response_fields };

    ghost from = { execute_response_from };

    ghost is_canonical = { any_form };

    ghost IsReadable = { execute_response_is_readable };

    #[tactic(auto, unfolding(rx_codec::specs::Parts::part_checked))]
    fn check_field(number: u32, value: Value<'_>, read: &Fields<'_>) -> Result<(), WireFault> {
        match number {
            execute_response::RESULT => check_message::<ActionResult>(number, value, read),
            execute_response::STATUS => check_message::<Status>(number, value, read),
            execute_response::MESSAGE => check_text(number, value, read),
            _ => Ok(()),
        }
    }

    #[tactic(auto, unfolding(crate::specs::Executions::execute_response_from))]
    fn from_fields(
        alloc: Global,
        list: &FieldList<'_, ExecuteResponse>,
    ) -> Result<ExecuteResponse, MessageFault> {
        let result = list.message(alloc, execute_response::RESULT)?;
        let cached_result = list.truth(execute_response::CACHED_RESULT);
        let status = list.message(alloc, execute_response::STATUS)?;
        let message = list.text(alloc, execute_response::MESSAGE)?;
        Ok(ExecuteResponse {
            result,
            cached_result,
            status,
            message,
        })
    }

    #[tactic(auto, unfolding(crate::specs::Executions::execute_response_fields))]
    fn write(&self, alloc: Global, out: &mut Writer<ExecuteResponse>) -> Result<(), NoMemory> {
        out.message(alloc, execute_response::RESULT, &self.result)?;
        out.truth(execute_response::CACHED_RESULT, self.cached_result)?;
        out.message(alloc, execute_response::STATUS, &self.status)?;
        out.text(execute_response::MESSAGE, self.message.as_str())
    }

    fn has_one_form(&self, alloc: Global, bytes: &[u8]) -> Result<bool, NoMemory> {
        Ok(true)
    }
}

/// The call Execution/WaitExecution: the end of an execution is waited for.
#[derive(Debug, Drop)]
pub struct WaitExecutionRequest {
    /// The name of its Operation.
    pub name: Text,
}

impl Shape for WaitExecutionRequest {
    ghost use Rattle.rx_exec_messages.specs.Executions.{wait_execution_request_parts};

    ghost parts = { wait_execution_request_parts };
}

impl Message for WaitExecutionRequest {
    ghost use Rattle.rx_codec.specs.Decoding.{any_form};
    ghost use Rattle.rx_exec_messages.specs.Executions.{wait_execution_request_fields};
    ghost use Rattle.rx_exec_messages.specs.Executions.{wait_execution_request_from};
    ghost use Rattle.rx_exec_messages.specs.Executions.{wait_execution_request_is_readable};

    ghost fields = { wait_execution_request_fields };

    ghost from = { wait_execution_request_from };

    ghost is_canonical = { any_form };

    ghost IsReadable = { wait_execution_request_is_readable };

    #[tactic(auto, unfolding(rx_codec::specs::Parts::part_checked))]
    fn check_field(number: u32, value: Value<'_>, read: &Fields<'_>) -> Result<(), WireFault> {
        match number {
            wait_execution_request::NAME => check_text(number, value, read),
            _ => Ok(()),
        }
    }

    #[tactic(auto, unfolding(crate::specs::Executions::wait_execution_request_from))]
    fn from_fields(
        alloc: Global,
        list: &FieldList<'_, WaitExecutionRequest>,
    ) -> Result<WaitExecutionRequest, MessageFault> {
        let name = list.text(alloc, wait_execution_request::NAME)?;
        Ok(WaitExecutionRequest { name })
    }

    #[tactic(auto, unfolding(crate::specs::Executions::wait_execution_request_fields))]
    fn write(&self, alloc: Global, out: &mut Writer<WaitExecutionRequest>) -> Result<(), NoMemory> {
        out.text(wait_execution_request::NAME, self.name.as_str())
    }

    fn has_one_form(&self, alloc: Global, bytes: &[u8]) -> Result<bool, NoMemory> {
        Ok(true)
    }
}
