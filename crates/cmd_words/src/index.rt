//! The indices of the commands (JESD84-B51, section 6.10.4; in Linux MMC_SWITCH, MMC_SEND_STATUS, MMC_QUE_TASK_PARAMS,
//! MMC_QUE_TASK_ADDR, MMC_EXECUTE_READ_TASK, MMC_EXECUTE_WRITE_TASK and MMC_CMDQ_TASK_MGMT).

pub const SWITCH: u8 = 6;

pub const SEND_STATUS: u8 = 13;

pub const QUEUED_TASK_PARAMS: u8 = 44;

pub const QUEUED_TASK_ADDRESS: u8 = 45;

pub const EXECUTE_READ_TASK: u8 = 46;

pub const EXECUTE_WRITE_TASK: u8 = 47;

pub const CMDQ_TASK_MGMT: u8 = 48;
